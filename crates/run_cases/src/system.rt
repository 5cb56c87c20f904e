// A system whose words are known, and which keeps what is said on standard error.
use std::alloc::Global;
use std::cell::RefCell;
use std::env::FillError;
use std::fmt::Display;
use std::io;
use std::io::{Error, ErrorKind};
use std::rt::Env;

#[derive(Drop)]
pub(crate) struct FakeSystem<'a> {
    alloc: Global,
    words: &'a [&'a str],
    said: RefCell<String>,
}

impl<'a> FakeSystem<'a> {
    pub(crate) fn new(alloc: Global, words: &'a [&'a str]) -> Self {
        FakeSystem {
            alloc,
            words,
            said: RefCell::new(String::new(alloc)),
        }
    }

    /// What was said on standard error.
    pub(crate) fn into_said(self) -> String {
        self.said.into_inner()
    }

    fn say<D: Display + Drop>(&self, value: D, end: &str) -> io::Result<()> {
        let Ok(mut said) = self.said.try_borrow_mut() else {
            return Err(Error::from(ErrorKind::Other));
        };
        write!(said, "{value}{end}")?;
        Ok(())
    }
}

impl Alloc for FakeSystem<'_> {
    type A = Global;

    fn alloc(&self) -> Global {
        self.alloc
    }
}

impl Env for FakeSystem<'_> {
    fn arg(&self, i: usize, buf: &mut [u8]) -> Result<usize, FillError> {
        let Some(word) = self.words.get(i) else {
            return Err(FillError::NotPresent);
        };
        let length = word.len();
        if length > buf.len() {
            return Err(FillError::TooLong);
        }
        buf[..length].copy_from_slice(word.as_bytes());
        Ok(length)
    }

    fn var(&self, _name: &str, _buf: &mut [u8]) -> Result<usize, FillError> {
        Err(FillError::NotPresent)
    }

    fn var_at(&self, _i: usize, _buf: &mut [u8]) -> Result<usize, FillError> {
        Err(FillError::NotPresent)
    }
}

impl Eprint for FakeSystem<'_> {
    fn eprint<D: Display + Drop>(&self, value: D) -> io::Result<()> {
        self.say(value, "")
    }

    fn eprintln<D: Display + Drop>(&self, value: D) -> io::Result<()> {
        self.say(value, "\n")
    }
}
