// One section of the input.
use crate::script_error::ScriptError;
use crate::shown::lines_with;
use mdns_base::MemSink;
use mdns_hub::{Hub, HubError};
use mdns_script::{Line, read_line};
use std::alloc::Global;

/// A script, as far as it was played.
#[derive(Drop)]
pub struct Section {
    hub: Hub,
    transcript: MemSink,
    /// How many lines were taken.
    taken: u64,
    /// The first line that is bad, or bad at its place: the script ends there.
    bad: Option<u64>,
    /// The beginnings of the lines that are to be shown; all are where there is no such line.
    only: Option<String>,
}

impl Section {
    /// A script of which nothing was played.
    pub fn new(alloc: Global) -> Self {
        Section {
            hub: Hub::new(alloc),
            transcript: MemSink::new(alloc, Vec::new(alloc)),
            taken: 0,
            bad: None,
            only: None,
        }
    }

    /// Takes the next line: one of the script, or one that says what is to be shown.
    pub fn take_line(&mut self, alloc: Global, line: &str) -> Result<(), ScriptError> {
        self.taken = self.taken.saturating_add(1);
        if self.bad.is_some() {
            return Ok(());
        }
        match line.strip_prefix("only ") {
            Some(beginnings) => self.only = Some(beginnings.to_string(alloc)?),
            None if self.play(alloc, line)? => {}
            None => self.bad = Some(self.taken),
        }
        Ok(())
    }

    // Plays a line of the script. The answer is false where it is bad, or bad at its place.
    fn play(&mut self, alloc: Global, line: &str) -> Result<bool, ScriptError> {
        let Line::Command(command) = read_line(alloc, line.as_bytes())? else {
            return Ok(false);
        };
        match self.hub.run(command, &mut self.transcript) {
            Ok(()) => Ok(true),
            Err(HubError::BadCommand) => Ok(false),
            Err(error) => Err(ScriptError::from(error)),
        }
    }

    /// What is to be shown of the script: its transcript or lines of it, and the bad line.
    pub fn shown(&self, alloc: Global) -> Result<String, ScriptError> {
        let transcript = str::from_utf8(self.transcript.bytes()).map_err(|_| ScriptError::NoText)?;
        let mut shown = match &self.only {
            Some(beginnings) => lines_with(alloc, transcript, beginnings)?,
            None => transcript.to_string(alloc)?,
        };
        if let Some(number) = self.bad {
            shown.push_str(format!(in alloc; "bad line {number}\n")?.as_str())?;
        }
        Ok(shown)
    }
}
