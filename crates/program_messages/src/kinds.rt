//! What kind of file a text looks like, where it is not the kind that a command reads.

/// A kind of text.
#[derive(Clone, Copy)]
pub enum Kind {
    /// A set-up.
    Setup,
    /// A policy.
    Policy,
    /// A `.system` file.
    System,
    /// capDL text.
    Layout,
}

impl Kind {
    /// What a text of the kind is called, and which command reads it.
    fn words(self) -> (&'static str, &'static str) {
        match self {
            Kind::Setup => ("a set-up", "check"),
            Kind::Policy => ("a policy", "policy"),
            Kind::System => ("a .system file", "import"),
            Kind::Layout => ("capDL text", "import"),
        }
    }
}

/// Whether a line has nothing but a comment, if anything.
fn is_comment(line: &str) -> bool {
    line.is_empty() || line.starts_with("#") || line.starts_with("--") || line.starts_with("//")
}

/// The key or the word that a line begins with.
fn first_word(line: &str) -> &str {
    for (end, byte) in line.as_bytes().iter().enumerate() {
        if !(byte.is_ascii_alphanumeric() || *byte == b'_') {
            return line.split_at_checked(end).unwrap_or((line, "")).0;
        }
    }
    line
}

/// The first line of a text that is no comment, without the white space around it.
fn first_line(text: &str) -> Option<&str> {
    for line in text.lines() {
        let line = line.trim();
        if !is_comment(line) {
            return Some(line);
        }
    }
    None
}

/// The kind that a text looks like, by the first of its lines that is no comment.
pub fn kind_of(text: &str) -> Option<Kind> {
    let line = first_line(text)?;
    if line.starts_with("<") {
        return Some(Kind::System);
    }
    match first_word(line) {
        "format" => Some(Kind::Setup),
        "policy" => Some(Kind::Policy),
        "arch" => Some(Kind::Layout),
        _ => None,
    }
}

/// What a text of another kind than the one that a command reads looks like, and which command reads that.
pub fn other_kind(text: &str, reads_layouts: bool) -> Option<(&'static str, &'static str)> {
    let kind = kind_of(text)?;
    let is_right = match kind {
        Kind::Setup => !reads_layouts,
        Kind::System | Kind::Layout => reads_layouts,
        Kind::Policy => false,
    };
    if is_right { None } else { Some(kind.words()) }
}
