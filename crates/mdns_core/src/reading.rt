// An event, read once.
ghost use Rattle.std.specs.Prelude.{◌≡◌, ◌≢◌, ℕ, ◌≤◌, List, [], ◌∷◌, ◌++◌, true, length, IfOk, OnOk, Ok, None, if◌then◌else◌};
ghost use Rattle.dns_message.specs.Reading.{fault_number};
ghost use Rattle.sd_answer.specs.Laws.{have_data};
ghost use Rattle.mdns_history.specs.Hearings.{Hearing, is_ignored, counted, counted_records, brought};
ghost use Rattle.mdns_history.specs.Lifetimes.{room_for_records};
ghost use Rattle.mdns_happened.specs.Told.{told_of, told_by, packet_told};
ghost use Rattle.mdns_cache.specs.Lifetimes.{Holds};
ghost use Rattle.mdns_records.specs.After.{held_after};
ghost use Rattle.mdns_claims.specs.Planned.{IsAcceptable};
ghost use Rattle.mdns_core.specs.Viewed.{kept_outcome, registering};
ghost use Rattle.mdns_core.specs.Next.{refusal_of, is_full, are_too_many};
ghost use Rattle.sd_sessions.specs.Kept.{IsWellFormedCall};

use crate::outcomes::{boot, take, tick};
use crate::plan::Kept;
use dns_message::{Message, MessageError, read};
use mdns_base::{Host, MDNS_PORT};
use mdns_claims::Claims;
use mdns_happened::{Happened, Heard, Idle, Refusal, When};
use mdns_history::{Event, Mark, SharedRrs, put_shared};
use mdns_records::Records;
use sd_call::{Request, well_formed};
use sd_operations::Registering;
use std::alloc::{AllocError, Global};

/// An event, read once: what happened, and the records that are heard with it.
#[derive(Drop)]
pub struct Reading<'a> {
    pub happened: Happened<'a>,
    pub heard: SharedRrs,
}

/// Reads an event, told of what is kept before it. Nothing else reads it. Refused only for want of memory.
#[tactic(auto, unfolding(sd_sessions::specs::Codes::kept_outcome))]
pub fn read_event<'a>(
    kept: &Kept<'_>,
    when: When,
    event: &'a Event,
) -> Result<Reading<'a>, AllocError>
    requires within { length kept.now.parts.now.records.held ≤ room_for_records }
    ensures told { IfOk result (λ reading. told_by reading.happened
        ≡ told_of event.now (kept_outcome kept.now.parts.now.claims.contents kept.now.parts.now.sessions.opened kept.now.parts.now.sessions.sessions event.now) (told_by reading.happened).refusal) }
    ensures refused { IfOk result (λ reading. (past : List Hearing) (before : ℕ) → before ≤ when.moment → Holds kept.now.parts.now.records.held past before
        → (told_by reading.happened).refusal ≡ refusal_of (is_full when.moment when.word event.now past) event.now) }
    ensures records { IfOk result (λ reading. reading.heard ≡ counted_records (told_by reading.happened).heard) }
    ensures room { IfOk result (λ reading. length (held_after when.moment when.word reading.heard kept.now.parts.now.records.held) ≤ room_for_records) }
    ensures parts { IfOk result (λ _. have_data (counted_records (brought event.now)) ≡ true) }
    ensures well_formed { IfOk result (λ reading. IsWellFormedCall (told_by reading.happened).call) }
    ensures acceptable { IfOk result (λ reading. IsAcceptable kept.now.parts.now.claims.contents.registered (told_by reading.happened).call) }
{
    let alloc = kept.alloc;
    match event {
        Event::Hear { from, bytes } => {
            read_packet(alloc, &kept.parts.records, when, from, bytes.as_slice())
        }
        Event::Attach => brings_nothing(alloc, kept.parts.sessions.attach()),
        Event::Detach { session } => brings_nothing(alloc, kept.parts.sessions.detach(*session)),
        Event::Call {
            session,
            op,
            request,
        } => {
            let known = registering(&kept.parts.claims, *session, *op, request);
            brings_nothing(
                alloc,
                kept.parts.sessions.call(*session, *op, request, known),
            )
        }
        Event::Take { session, max } => brings_nothing(alloc, take(*session, *max)),
        Event::Tick => brings_nothing(alloc, tick()),
        Event::Boot { config } => brings_nothing(alloc, boot(config)),
    }
}

// What is known of registrations where a call comes.
fn registering(claims: &Claims, session: u64, op: u32, request: &Request) -> Registering
    ensures { result ≡ registering claims.now.contents session op request.now }
{
    Registering {
        hosted: claims.hosted(),
        spent: claims.spent(),
        live: claims.is_live(session, op),
        taken: well_formed(request) && claims.is_held_name(request),
    }
}

// What happened, where it brings no record. It takes no memory.
fn brings_nothing(alloc: Global, happened: Happened<'_>) -> Result<Reading<'_>, AllocError>
    ensures told { IfOk result (λ reading. told_by reading.happened ≡ told_by happened.entry) }
    ensures records { IfOk result (λ reading. reading.heard ≡ []) }
{
    Ok(Reading {
        happened,
        heard: SharedRrs::new(alloc),
    })
}

// Reads a packet.
fn read_packet<'a>(
    alloc: Global,
    records: &Records,
    when: When,
    from: &'a Host,
    bytes: &[u8],
) -> Result<Reading<'a>, AllocError>
    requires within { length records.now.held ≤ room_for_records }
    ensures told { IfOk result (λ reading. told_by reading.happened ≡ packet_told (brought (Event.Hear from.now bytes.now)) (told_by reading.happened).refusal) }
    ensures refused { IfOk result (λ reading. (past : List Hearing) (before : ℕ) → before ≤ when.moment → Holds records.now.held past before
        → (told_by reading.happened).refusal ≡ refusal_of (is_full when.moment when.word (Event.Hear from.now bytes.now) past) (Event.Hear from.now bytes.now)) }
    ensures records { IfOk result (λ reading. reading.heard ≡ counted_records (told_by reading.happened).heard) }
    ensures room { IfOk result (λ reading. length (held_after when.moment when.word reading.heard records.now.held) ≤ room_for_records) }
    ensures parts { IfOk result (λ _. have_data (counted_records (brought (Event.Hear from.now bytes.now))) ≡ true) }
{
    match read(alloc, bytes) {
        Ok(message) => read_message(alloc, records, when, from, message),
        Err(fault) => read_fault(alloc, fault),
    }
}

// A packet that spells no message is refused.
fn read_fault<'a>(alloc: Global, fault: MessageError) -> Result<Reading<'a>, AllocError>
    ensures found { IfOk result (λ _. fault ≢ MessageError.NoMemory) }
    ensures told { IfOk result (λ reading. told_by reading.happened ≡ packet_told None (Mark.Bad (fault_number fault) ∷ [])) }
    ensures records { IfOk result (λ reading. reading.heard ≡ []) }
{
    match fault {
        MessageError::NoMemory => Err(AllocError),
        _ => {
            let why = Refusal::Bad {
                number: fault as u8,
            };
            brings_nothing(alloc, Happened::Refused { why })
        }
    }
}

// Reads a message: it is ignored, or refused where there would be too many records with those that it brings, or else heard.
fn read_message<'a>(
    alloc: Global,
    records: &Records,
    when: When,
    from: &'a Host,
    message: Message,
) -> Result<Reading<'a>, AllocError>
    requires within { length records.now.held ≤ room_for_records }
    ensures told { IfOk result (λ reading. told_by reading.happened ≡ packet_told (counted from.now (Ok message)) (told_by reading.happened).refusal) }
    ensures refused { IfOk result (λ reading. (past : List Hearing) (before : ℕ) → before ≤ when.moment → Holds records.now.held past before
        → (told_by reading.happened).refusal ≡ (if are_too_many when.moment when.word (counted_records (counted from.now (Ok message))) past then Mark.Full ∷ [] else [])) }
    ensures records { IfOk result (λ reading. reading.heard ≡ counted_records (told_by reading.happened).heard) }
    ensures room { IfOk result (λ reading. length (held_after when.moment when.word reading.heard records.now.held) ≤ room_for_records) }
{
    if is_ignored(from, &message) {
        return brings_nothing(alloc, Happened::Nothing { why: Idle::Ignored });
    }
    let heard = records_of(alloc, &message)?;
    if !records.fits(when.at(), heard.as_slice()) {
        return brings_nothing(alloc, Happened::Refused { why: Refusal::Full });
    }
    Ok(Reading {
        happened: Happened::Heard(Heard { from, message }),
        heard,
    })
}

// Whether a message isn't for us, or a response from a host that may not answer. (RFC 6762 6 and 18)
fn is_ignored(from: &Host, message: &Message) -> bool
    ensures { result ≡ is_ignored from.now message.now }
{
    message.opcode != 0 || message.rcode != 0 || (message.response && from.port != MDNS_PORT)
}

// The records of a response, to be shared: those of its answer section, then those of its additional one.
fn records_of(alloc: Global, message: &Message) -> Result<SharedRrs, AllocError>
    ensures { IfOk result (λ rrs. rrs ≡ (if message.now.response then message.now.answers ++ message.now.additional else [])) }
{
    let mut records = Vec::new(alloc);
    if message.response {
        put_shared(alloc, &mut records, message.answers.as_slice())?;
        put_shared(alloc, &mut records, message.additional.as_slice())?;
    }
    Ok(SharedRrs::from_vec(records))
}
