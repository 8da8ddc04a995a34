//! Questions, computed plainly from a whole history: which are active, when each was asked and is due, which answers are known,
//! and which questions an entry asks. (RFC 6762 5.2, 7.1 and 7.3)
#![tactic(auto)]

mod active;
mod begun;
mod heard;
mod known;
mod moments;
mod question;
mod refresh;
mod series;
mod tick;

pub use active::{active_questions, is_active};
pub use heard::heard_askings;
pub use known::{are_by, known_answers};
pub use moments::{asking_moments, is_counted, series_moments};
pub use question::ActiveQuestion;
pub use refresh::{is_refresh_due, refresh_points};
pub use series::series_due;
pub use tick::tick_askings;
