//! The objects of a text in the form, what covers them, and the numbers of interrupts.
use crate::caps::entry_of;
use crate::kinds::{EXTRAS, FIELDS, TEXTS};
use crate::reading::{Declared, Reader, variant_of};
use serde_json::Value;
use std::alloc::AllocError;
use std::collections::HashMap;
use std::fmt::Write;

impl Reader<'_> {
    /// The parameters of an object in capDL text, each with a comma behind it. Of these names members are known.
    fn parameters(&mut self, fields: &Value, known: &str, of: &str) -> Result<String, AllocError> {
        let mut made = String::new(self.alloc);
        if known.starts_with("size_bits") {
            let bits = self.needed(fields, "size_bits", of);
            write!(&mut made, "{bits} bits, ")?;
        }
        if let Some(address) = self.number(fields, "paddr", of) {
            write!(&mut made, "paddr: {address}, ")?;
        }
        if known.starts_with("start_port") {
            let first = self.needed(fields, "start_port", of);
            let last = self.needed(fields, "end_port", of);
            write!(&mut made, "ports: [{first}-{last}], ")?;
        }
        match fields.pointer("/extra/resume") {
            None | Some(Value::Bool(true)) => {}
            Some(Value::Bool(false)) => made.push_str("resume: false, ")?,
            Some(_) => self.fail(format_args!("resume of {of} is true or false")),
        }
        Ok(made)
    }

    /// Adds the names of what a region covers.
    fn add_covered(&mut self, region: usize) -> Result<(), AllocError> {
        for (parent, start, end) in self.covers.as_slice() {
            if *parent != region {
                continue;
            }
            for number in *start..*end {
                if let Some(Declared { name, .. }) = self.declared.get(number as usize) {
                    self.objects.put(self.spot, name.as_str())?;
                }
            }
        }
        Ok(())
    }

    /// What is said of an object of a kind, if anything is.
    fn fields_of<'v>(
        &mut self,
        value: &'v Value,
        kind: usize,
        name: &str,
    ) -> Result<Option<&'v Value>, AllocError> {
        let Some(variant) = value.get("object").and_then(variant_of) else {
            return Ok(None);
        };
        if let Some(fields) = variant.fields {
            self.note_others(fields, FIELDS.get(kind).copied().unwrap_or(""), name)?;
            if let Some(extra) = fields.get("extra") {
                self.note_others(extra, EXTRAS.get(kind).copied().unwrap_or(""), name)?;
            }
        }
        Ok(variant.fields)
    }

    /// Adds the lines of an object.
    pub fn add_object(&mut self, number: usize, value: &Value) -> Result<(), AllocError> {
        self.begin(number);
        let Some(
            Declared {
                name,
                kind: Some(kind),
            },
        ) = self.declared.get(number)
        else {
            return Ok(());
        };
        let (name, kind) = (name.clone()?, *kind);
        let (name, nothing) = (name.as_str(), Value::Null);
        let fields = self.fields_of(value, kind, name)?.unwrap_or(&nothing);
        let made = self.parameters(fields, FIELDS.get(kind).copied().unwrap_or(""), name)?;
        let parameters = made.as_str().strip_suffix(", ").unwrap_or("");
        let (spot, text) = (self.spot, TEXTS.get(kind).copied().unwrap_or(""));
        self.objects
            .put(spot, format_args!("{name} = {text} ({parameters})"))?;
        if text == "ut" {
            self.objects.put(spot, "{")?;
            self.add_covered(number)?;
            self.objects.put(spot, "}")?;
        }
        self.add_slots(fields, name, text)
    }

    /// Reads which regions cover which objects.
    pub fn read_covers(&mut self, covers: Option<&Value>) -> Result<(), AllocError> {
        let (of, mut covered) = ("one of untyped_covers", HashMap::new(self.alloc));
        for cover in self.list_of(covers, "untyped_covers") {
            self.note_others(cover, "parent children", of)?;
            let children = cover.get("children").unwrap_or(&Value::Null);
            self.note_others(children, "start end", of)?;
            let start = self.needed(children, "start", of);
            let end = self.needed(children, "end", of);
            let count = self.declared.len() as u64;
            if start > end || end > count {
                let told = format_args!(
                    "{of} goes from {start} to {end}, and there are {count} objects"
                );
                self.fail(told);
                continue;
            }
            for number in start..end {
                if covered.insert(number, true)?.is_some() {
                    self.fail(format_args!(
                        "{of} covers object {number}, which another one covers"
                    ));
                    return Ok(());
                }
            }
            if let Some(parent) = self.object(cover, "parent", of) {
                self.covers.push((parent, start, end))?;
            }
        }
        Ok(())
    }

    /// Reads the numbers of interrupts.
    pub fn read_interrupts(&mut self, interrupts: Option<&Value>) -> Result<(), AllocError> {
        for entry in self.list_of(interrupts, "irqs") {
            let Some((number, Value::Number(handler))) = entry_of(entry, "irq", "handler") else {
                self.fail(
                    "each of irqs has a number irq, and a handler, which is the number of an object",
                );
                continue;
            };
            let handler = handler.as_u64().unwrap_or(u64::MAX);
            match self
                .declared
                .get(usize::try_from(handler).unwrap_or(usize::MAX))
            {
                Some(Declared { name, .. }) => {
                    let name = name.as_str();
                    self.interrupts
                        .put(self.spot, format_args!("{number}: {name}"))?;
                }
                None => self.fail(format_args!("irq {number}: there is no object {handler}")),
            }
        }
        Ok(())
    }
}
