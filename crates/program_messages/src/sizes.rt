//! Sizes that the options of `new` ask for, and that no set-up has.
use cap_core::limits::{MAX_BOOT_ENDPOINTS, MAX_BOOT_THREADS, MIN_BOOT_THREADS};
use command_line::Options;
use std::alloc::{AllocError, Global};

/// Whether a word says a base and, behind a colon, bits.
fn is_region(word: &str) -> bool {
    match word.split_once(':') {
        Some((base, bits)) => base.parse::<u64>().is_ok() && bits.parse::<u32>().is_ok(),
        None => false,
    }
}

/// The first word of `--untyped` that says no region.
fn no_region(text: &str) -> Option<&str> {
    for word in text.split(',') {
        if !is_region(word) {
            return Some(word);
        }
    }
    None
}

/// Whether the number of an option is not from the least to the most.
fn is_past(number: Option<u64>, least: u32, most: u32) -> bool {
    match number {
        Some(n) => n < u64::from(least) || n > u64::from(most),
        None => false,
    }
}

/// What is wrong with a number, where one is.
fn wrong_number(alloc: Global, options: Options<'_>) -> Result<Option<String>, AllocError> {
    if is_past(options.threads, MIN_BOOT_THREADS, MAX_BOOT_THREADS) {
        let text = format!(in alloc;
            "--threads: a number from {MIN_BOOT_THREADS} to {MAX_BOOT_THREADS} is accepted"
        )?;
        return Ok(Some(text));
    }
    if is_past(options.endpoints, 0, MAX_BOOT_ENDPOINTS) {
        let text = format!(in alloc;
            "--endpoints: a number from 0 to {MAX_BOOT_ENDPOINTS} is accepted"
        )?;
        return Ok(Some(text));
    }
    Ok(None)
}

/// What is wrong with a text, where one is.
fn wrong_text(alloc: Global, options: Options<'_>) -> Result<Option<String>, AllocError> {
    if let Some(text) = options.untyped
        && let Some(word) = no_region(text)
    {
        let text = format!(in alloc;
            "--untyped {word}: BASE:BITS is accepted, as 32768:12; with commas between regions"
        )?;
        return Ok(Some(text));
    }
    match options.profile {
        Some(name) if name != "wide" && name != "narrow" => {
            let text = format!(in alloc; "--profile {name}: wide or narrow is accepted")?;
            Ok(Some(text))
        }
        _ => Ok(None),
    }
}

/// Why there is no set-up of the sizes that the options ask for.
///
/// # Errors
/// Where memory was refused.
pub fn absent_size(alloc: Global, options: Options<'_>) -> Result<String, AllocError> {
    if let Some(text) = wrong_number(alloc, options)? {
        return Ok(text);
    }
    if let Some(text) = wrong_text(alloc, options)? {
        return Ok(text);
    }
    format!(in alloc;
        "no set-up has these objects and regions: a region is not aligned, or overlaps what stands before it, or no memory has room for all"
    )
}
