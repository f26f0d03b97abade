//! The slots of objects in the form, and the capabilities in them.
use crate::kinds::{CAP_FIELDS, RIGHTS, UNTYPED};
use crate::reading::{Declared, Reader, Variant, variant_of};
use serde_json::Value;
use setup_layout::SLOT_WORDS;
use std::alloc::AllocError;
use std::collections::HashMap;
use std::fmt::Write;

/// A number and a value: the two items of a list, or the two members of an object, which have these names.
pub(crate) fn entry_of<'a>(
    value: &'a Value,
    first: &str,
    second: &str,
) -> Option<(u64, &'a Value)> {
    match value {
        Value::Array(items) => match items.as_slice() {
            [number, other] => Some((number.as_u64()?, other)),
            _ => None,
        },
        Value::Object(members) if members.len() == 2 => {
            Some((value.get(first)?.as_u64()?, value.get(second)?))
        }
        _ => None,
    }
}

/// Whether a CNode has a slot of this number.
fn has_slot(fields: &Value, number: u64) -> bool {
    let bits = match fields.get("size_bits") {
        Some(Value::Number(bits)) => bits.as_u64().unwrap_or(0),
        _ => 0,
    };
    number.checked_shr(bits.min(64) as u32).unwrap_or(0) == 0
}

impl Reader<'_> {
    /// The letters of rights in capDL text, with a comma behind them: `X` alone says that there is none.
    fn add_letters(
        &mut self,
        made: &mut String,
        rights: &Value,
        of: &str,
    ) -> Result<(), AllocError> {
        let length = made.len();
        self.note_others(rights, "read write grant grant_reply", of)?;
        for (word, letter) in RIGHTS {
            match rights.get(word) {
                Some(Value::Bool(true)) => made.push_str(letter)?,
                Some(Value::Bool(false)) => {}
                _ => self.fail(format_args!("rights of {of} need {word}, true or false")),
            }
        }
        if made.len() == length {
            made.push('X')?;
        }
        made.push_str(", ")
    }

    /// What a capability allows, in capDL text, with a comma behind each parameter.
    fn allowed(&mut self, fields: &Value, of: &str) -> Result<String, AllocError> {
        let mut made = String::new(self.alloc);
        if let Some(rights) = fields.get("rights") {
            self.add_letters(&mut made, rights, of)?;
        }
        for key in ["badge", "guard", "guard_size"] {
            if let Some(number) = self.number(fields, key, of) {
                write!(&mut made, "{key}: {number}, ")?;
            }
        }
        Ok(made)
    }

    /// A capability in capDL text, in a slot of an object.
    fn capability(&mut self, cap: &Value, of: &str) -> Result<String, AllocError> {
        let nothing = String::new(self.alloc);
        let Some(
            Variant {
                word,
                fields: Some(fields),
            },
        ) = variant_of(cap)
        else {
            self.fail(format_args!("a capability of {of} is of one kind, with its object"));
            return Ok(nothing);
        };
        let (kind, object) = (self.kind_of(word)?, self.object(fields, "object", of));
        let (Some(kind), Some(object)) = (kind, object) else {
            return Ok(nothing);
        };
        self.note_others(fields, CAP_FIELDS.get(kind).copied().unwrap_or(""), of)?;
        let made = self.allowed(fields, of)?;
        let parameters = made.as_str().strip_suffix(", ").unwrap_or("");
        let Some(Declared { name, kind: its }) = self.declared.get(object) else {
            return Ok(nothing);
        };
        let (name, is_of_kind) = (name.as_str(), *its == Some(kind));
        let text = format!(in self.alloc; "{name} ({parameters})")?;
        if !is_of_kind {
            self.fail(format_args!("a capability of {of} is {word}, and object {object} is none"));
        } else if kind == UNTYPED && self.held.insert(object, true)?.is_some() {
            let told = format_args!(
                "object {object} is in two slots; an untyped capability has no copies here"
            );
            self.fail(told);
        }
        Ok(text)
    }

    /// Adds the line of a slot, which has a name in a thread.
    fn add_slot(
        &mut self,
        number: u64,
        cap: &Value,
        name: &str,
        is_thread: bool,
    ) -> Result<(), AllocError> {
        let (spot, text) = (self.spot, self.capability(cap, name)?);
        let text = text.as_str();
        if !is_thread {
            return self.caps.put(spot, format_args!("{number}: {text}"));
        }
        match SLOT_WORDS.get(usize::try_from(number).unwrap_or(usize::MAX)) {
            Some(word) => self.caps.put(spot, format_args!("{word}: {text}"))?,
            None => self.fail(format_args!("a tcb has no slot {number}")),
        }
        Ok(())
    }

    /// Adds the lines of an object's slots, of which a CNode has no more than its bits say.
    pub fn add_slots(&mut self, fields: &Value, name: &str, kind: &str) -> Result<(), AllocError> {
        let (slots, spot) = (self.list_of(fields.get("slots"), "slots"), self.spot);
        let mut filled = HashMap::new(self.alloc);
        if slots.is_empty() {
            return Ok(());
        }
        self.caps.put(spot, format_args!("{name} {{"))?;
        for slot in slots {
            let Some((number, cap)) = entry_of(slot, "slot", "cap") else {
                let told = format_args!(
                    "each of the slots of {name} is a number, and a capability"
                );
                self.fail(told);
                continue;
            };
            if filled.insert(number, true)?.is_some() {
                self.fail(format_args!("slot {number} of {name} is filled twice"));
            }
            if kind == "cnode" && !has_slot(fields, number) {
                self.fail(format_args!("{name} has no slot {number}: it is too small"));
            }
            self.add_slot(number, cap, name, kind == "tcb")?;
        }
        self.caps.put(spot, "}")
    }
}
