// What makes the parts of a daemon that is served, and takes back those that count faults.
ghost use Rattle.std.specs.Prelude.{◌≡◌, ℕ, IfOk, Some, false};
ghost use Rattle.mdns_outside.specs.Places.{Counted, MakesLink, MakesDoor, MakesSpawner, TakesDoor, TakesSpawner, TakesEar};

use crate::{Air, Clock, Door, Ear, Gate, ServePlan, Spawner, Words};
use mdns_base::Failed;

/// What makes the parts of a daemon that is served.
pub trait Place {
    /// Where packets come from.
    type Ear: Ear + Send + Drop + 'static;

    /// Where packets go.
    type Air: Air + Send + Drop + 'static;

    /// Where connections come from.
    type Door: Door + Send + Drop + 'static;

    /// What tells the moment.
    type Clock: Clock + Send + Drop + 'static;

    /// What gives random words.
    type Words: Words + Send + Drop + 'static;

    /// What starts threads.
    type Spawner: Spawner + Send + Drop + 'static;

    /// What sessions pass.
    type Gate: Gate + Send + Drop + 'static;

    /// Its plan, its counts of faults, how many doors were over, and how many connections its doors gave.
    ghost counted: { Self → Counted };

    /// Keeps the plan. Nothing else changes.
    fn prepare(&mut self, plan: ServePlan)
        ensures { counted self.new ≡ record (counted self.old) { plan = Some plan } };

    /// Makes an ear, which has no faults.
    fn ear(&mut self) -> Result<Self::Ear, Failed>
        ensures made { MakesLink (counted self.old) (counted self.new) result }
        ensures fresh { IfOk result (λ ear. Self.Ear.faults ear ≡ 0) };

    /// Makes a door, which has no faults and isn't over. Where the place tells how many connections its doors gave, the
    /// door tells it, too, and has given none.
    fn door(&mut self) -> Result<Self::Door, Failed>
        ensures made { MakesDoor (counted self.old) (counted self.new) result }
        ensures none { IfOk result (λ door. (n : ℕ) → (counted self.new).given ≡ Some n → Self.Door.given door ≡ Some 0) }
        ensures fresh { IfOk result (λ door. (Self.Door.faults door ≡ 0) × (Self.Door.over door ≡ false)) };

    /// Makes a spawner, which has no faults.
    fn spawner(&mut self) -> Result<Self::Spawner, Failed>
        ensures made { MakesSpawner (counted self.old) (counted self.new) result }
        ensures fresh { IfOk result (λ spawner. Self.Spawner.faults spawner ≡ 0) };

    /// Makes an air.
    fn air(&mut self) -> Result<Self::Air, Failed>
        ensures { MakesLink (counted self.old) (counted self.new) result };

    /// Makes a clock.
    fn clock(&mut self) -> Result<Self::Clock, Failed>
        ensures { MakesLink (counted self.old) (counted self.new) result };

    /// Makes words.
    fn words(&mut self) -> Result<Self::Words, Failed>
        ensures { MakesLink (counted self.old) (counted self.new) result };

    /// Makes a gate.
    fn gate(&mut self) -> Result<Self::Gate, Failed>
        ensures { MakesLink (counted self.old) (counted self.new) result };

    /// Takes a door back. It counts a fault exactly where the door had one, and a door that is over.
    fn door_back(&mut self, door: Self::Door)
        ensures { TakesDoor (counted self.old) (counted self.new) (Self.Door.faults door) (Self.Door.over door) (Self.Door.given door) };

    /// Takes a spawner back. It counts a fault exactly where the spawner had one.
    fn spawner_back(&mut self, spawner: Self::Spawner)
        ensures { TakesSpawner (counted self.old) (counted self.new) (Self.Spawner.faults spawner) };

    /// Takes an ear back. It counts a fault exactly where the ear had one.
    fn ear_back(&mut self, ear: Self::Ear)
        ensures { TakesEar (counted self.old) (counted self.new) (Self.Ear.faults ear) };
}
