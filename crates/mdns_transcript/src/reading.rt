// Rows that grow by their lines.
ghost use Rattle.std.specs.Prelude.{◌≡◌, [], IfOk};
ghost use Rattle.mdns_lines.specs.ReadLines.{line_read};
ghost use Rattle.mdns_transcript.specs.Stages.{Before};
ghost use Rattle.mdns_transcript.specs.Drafts.{lines_read, stage_of, IsReading, IsClosedOr, IsPut, IsTaken, AreRowsOf};

use crate::Transcript;
use crate::draft::Draft;
use mdns_lines::read_line;
use mdns_print::Line;
use std::alloc::{AllocError, Global};

/// The rows whose lines were read, and the entry under way.
#[derive(Drop)]
pub(crate) struct Reading {
    rows: Transcript,
    draft: Option<Draft>,
}

impl Reading {
    /// Nothing yet.
    pub(crate) fn new(alloc: Global) -> Self
        ensures lines { lines_read result ≡ [] }
        ensures stage { stage_of result.draft ≡ Before }
        ensures is { IsReading result }
    {
        Reading {
            rows: Transcript::new(alloc),
            draft: None,
        }
    }

    /// Takes in the line that a text is, without its line feed, where it may follow those before it; says whether it may.
    pub(crate) fn take_line(&mut self, alloc: Global, text: &[u8]) -> Result<bool, AllocError>
        requires { IsReading self.old }
        ensures { IfOk result (λ taken. IsTaken self.old (line_read text.now) taken self.new) }
    {
        match read_line(alloc, text)? {
            Some(line) => self.put(alloc, line),
            None => Ok(false),
        }
    }

    // Puts a line behind those that were read, where it may follow.
    fn put(&mut self, alloc: Global, line: Line) -> Result<bool, AllocError>
        requires { IsReading self.old }
        ensures { IfOk result (λ put. IsPut self.old line put self.new) }
    {
        match line {
            Line::Head {
                daemon,
                moment,
                word,
                event,
            } => {
                if !self.close()? {
                    return Ok(false);
                }
                self.draft = Some(Draft::new(alloc, daemon, moment, word, event));
                Ok(true)
            }
            line => match &mut self.draft {
                Some(draft) => draft.add(alloc, line),
                None => Ok(false),
            },
        }
    }

    // Puts the entry under way behind the rows, if there is one and no line of it is wanting; says whether none is.
    fn close(&mut self) -> Result<bool, AllocError>
        requires { IsReading self.old }
        ensures { IfOk result (λ closed. IsClosedOr self.old closed self.new) }
    {
        let Some(draft) = self.draft.take() else {
            return Ok(true);
        };
        match draft.finish()? {
            Some(row) => {
                self.rows.push(row)?;
                Ok(true)
            }
            None => Ok(false),
        }
    }

    /// The rows, where no line is wanting. Refused only for want of memory.
    pub(crate) fn finish(mut self) -> Result<Option<Transcript>, AllocError>
        requires { IsReading self }
        ensures { IfOk result (λ rows. AreRowsOf self rows) }
    {
        if self.close()? {
            Ok(Some(self.rows))
        } else {
            Ok(None)
        }
    }
}
