// Laws of the definitions: what a history's next entry makes of the questions that an asker keeps.
ghost use Rattle.std.specs.Prelude.{◌≡◌, ◌<◌, ℕ, true, false, List, ◌∷◌, map, filter};
ghost use Rattle.std.specs.List.{AllByRecursion};
ghost use Rattle.std.specs.List.Sorted.{IsPermutation};
ghost use Rattle.dns_record.specs.declared.record.Key.{Key};
ghost use Rattle.mdns_history.specs.declared.mark.Cause.{Cause};
ghost use Rattle.mdns_history.specs.declared.entry.Entry.{Entry};
ghost use Rattle.mdns_history.specs.History.{has_mark};
ghost use Rattle.mdns_history.specs.Lifetimes.{is_live_at, live_records};
ghost use Rattle.mdns_history.specs.Questions.{begins_asking};
ghost use Rattle.mdns_history.specs.Asking.{is_counted, is_asking, is_series_asking, tick_askings};
ghost use Rattle.mdns_question.specs.declared.tracked.Tracked.{Tracked};
ghost use Rattle.mdns_question.specs.Contents.{Contents};
ghost use Rattle.mdns_history.specs.declared.held.Held.{Held};
ghost use Rattle.mdns_question.specs.Tracking.{begun, asked_at, due_at, due_cause};
ghost use Rattle.mdns_question.specs.Next.{next_of};
ghost use Rattle.mdns_question.specs.Refreshing.{IsTimed, moment_of, cause_of};
ghost use Rattle.mdns_question.specs.Standing.{uses, IsTracked, Stands, mark_of};

/// Where the questions that are kept stand for a history, and the held records that are live are the history's, what is
/// due is what a tick asks. A question that begins with an entry, was asked in it, or neither, is behind the entry as
/// `start` and `asked` make it. (RFC 6762 5.2)
pub fn askings_follow_the_history()
    ensures due { (contents : Contents) (history : List Entry) (moment : ℕ) → Stands contents history
        → IsPermutation (filter (is_live_at moment) contents.held) (live_records history moment)
        → map mark_of (due_at contents moment) ≡ tick_askings history moment }
    ensures begun { (question : Key) (entry : Entry) (past : List Entry) → begins_asking question entry past ≡ true
        → uses question (entry ∷ past) ≡ 1 → IsTracked (entry ∷ past) (begun entry.moment entry.word question) }
    ensures asked { (one : Tracked) (entry : Entry) (past : List Entry) (cause : Cause) → IsTracked past one
        → begins_asking one.key entry past ≡ false → uses one.key (entry ∷ past) ≡ uses one.key past
        → has_mark (is_asking one.key) entry ≡ true → has_mark (is_series_asking one.key) entry ≡ is_counted cause
        → IsTracked (entry ∷ past) (asked_at entry.moment cause one) }
    ensures kept { (one : Tracked) (entry : Entry) (past : List Entry) → IsTracked past one
        → begins_asking one.key entry past ≡ false → uses one.key (entry ∷ past) ≡ uses one.key past
        → has_mark (is_asking one.key) entry ≡ false → IsTracked (entry ∷ past) one }
{}

/// Where the refresh point that is kept of a question is the first one of the records that are held, what is kept says when
/// it is first due over these records; and where they are live at a moment, whether and why it is due then. (RFC 6762 5.2)
pub fn kept_points_tell_what_is_due()
    ensures moment { (held : List Held) (one : Tracked) → IsTimed held one → moment_of one ≡ next_of held one }
    ensures cause { (held : List Held) (moment : ℕ) (one : Tracked) → AllByRecursion (λ (told : Held). moment < told.end) held
        → IsTimed held one → cause_of moment one ≡ due_cause held moment one }
{}
