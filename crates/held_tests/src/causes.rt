// Why questions are asked, as words.

use mdns_history::Cause;
use row_words::{RowError, Told};

/// Appends the word for why a question is asked.
pub fn put_cause(told: &mut Told, cause: Cause) -> Result<(), RowError> {
    match cause {
        Cause::Series => told.put("series"),
        Cause::Refresh => told.put("refresh"),
        Cause::Heard => told.put("heard"),
    }
}
