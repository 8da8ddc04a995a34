// The parts that a place makes for a server.
ghost use Rattle.std.specs.Prelude.{◌≡◌, ◌⊎◌, false, IfOk, OnOk, IfErr, Some};
ghost use Rattle.mdns_outside.specs.Places.{MakesLink};
ghost use Rattle.mdns_server.specs.Endings.{Ends, IsPartFault};

use crate::slot::NewEar;
use crate::status::{DOOR_FAULT, LINK_FAULT, SPAWN_FAULT};
use mdns_base::Failed;
use mdns_outside::Place;
use mdns_serve::Kit;

/// The kit of a thread of a place.
pub(crate) type KitOf<P> = Kit<<P as Place>::Air, <P as Place>::Clock, <P as Place>::Words>;

/// What both halves of a session work with.
#[derive(Drop)]
pub(crate) struct HalfParts<P: Place> {
    pub reading: KitOf<P>,
    pub reading_gate: P::Gate,
    pub writing: KitOf<P>,
    pub writing_gate: P::Gate,
}

/// What a server works with. Door and spawner haven't failed yet, and the door isn't over.
#[derive(Drop)]
pub(crate) struct Parts<P: Place> {
    pub own: KitOf<P>,
    pub hearing: KitOf<P>,
    pub ticking: KitOf<P>,
    pub ear: NewEar<P::Ear>,
    pub door: P::Door,
    pub spawner: P::Spawner,
    ghost fresh_door: { (P.Door.faults door ≡ 0) × (P.Door.over door ≡ false) },
    ghost fresh_spawner: { P.Spawner.faults spawner ≡ 0 },
}

// An air, a clock and words. They fail only with the link.
fn make_kit<P: Place>(place: &mut P) -> Result<KitOf<P>, Failed>
    ensures { MakesLink (P.counted place.old) (P.counted place.new) result }
{
    let air = place.air()?;
    let clock = place.clock()?;
    let words = place.words()?;
    Ok(Kit { air, clock, words })
}

/// The parts of both halves of a session. They fail only with the link.
pub(crate) fn make_halves<P: Place>(place: &mut P) -> Result<HalfParts<P>, Failed>
    ensures { MakesLink (P.counted place.old) (P.counted place.new) result }
{
    let reading = make_kit(place)?;
    let reading_gate = place.gate()?;
    let writing = make_kit(place)?;
    let writing_gate = place.gate()?;
    Ok(HalfParts {
        reading,
        reading_gate,
        writing,
        writing_gate,
    })
}

/// The parts of a server. The error is its status: 9, 10 or 11 where door, spawner or link failed. What was made then went
/// back to the place.
pub(crate) fn make_parts<P: Place>(place: &mut P) -> Result<Parts<P>, u8>
    ensures made { OnOk result (P.counted place.new ≡ P.counted place.old) }
    ensures given { IfOk result (λ parts. (n : _) → (P.counted place.new).given ≡ Some n → P.Door.given parts.door ≡ Some 0) }
    ensures failed { IfErr result (λ status. Ends (P.counted place.old) (P.counted place.new) status × IsPartFault status) }
{
    let Ok((own, hearing, ticking)) = make_kits(place) else {
        return Err(LINK_FAULT);
    };
    let Ok(ear) = place.ear() else {
        return Err(LINK_FAULT);
    };
    let Ok(spawner) = place.spawner() else {
        place.ear_back(ear);
        return Err(SPAWN_FAULT);
    };
    let Ok(door) = place.door() else {
        place.spawner_back(spawner);
        place.ear_back(ear);
        return Err(DOOR_FAULT);
    };
    Ok(Parts {
        own,
        hearing,
        ticking,
        ear: NewEar { ear },
        door,
        spawner,
    })
}

// The kits of the accepting thread, the ear and the ticker.
fn make_kits<P: Place>(place: &mut P) -> Result<(KitOf<P>, KitOf<P>, KitOf<P>), Failed>
    ensures { MakesLink (P.counted place.old) (P.counted place.new) result }
{
    let own = make_kit(place)?;
    let hearing = make_kit(place)?;
    let ticking = make_kit(place)?;
    Ok((own, hearing, ticking))
}
