use std::alloc::{AllocError, Global};

/// Text that is told, and whether there was no memory for some of it: then it is not told at all.
#[derive(Drop)]
pub struct Page {
    pub text: String,
    pub lacks: bool,
}

impl Page {
    /// No text.
    pub fn new(alloc: Global) -> Page {
        Page {
            text: String::new(alloc),
            lacks: false,
        }
    }

    /// Notes whether something was added.
    pub fn note(&mut self, added: Result<(), AllocError>) {
        if added.is_err() {
            self.lacks = true;
        }
    }

    /// Adds a text.
    pub fn add(&mut self, text: &str) {
        let added = self.text.push_str(text);
        self.note(added);
    }

    /// Adds bytes that are text.
    pub fn add_bytes(&mut self, bytes: &[u8]) {
        self.add(shown(bytes));
    }
}

/// Bytes as text.
pub fn shown(bytes: &[u8]) -> &str {
    match std::str::from_utf8(bytes) {
        Ok(text) => text,
        Err(_) => "(not UTF-8)",
    }
}
