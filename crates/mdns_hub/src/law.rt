// The laws of scripts.
ghost use Rattle.mdns_hub.specs.Once.{AreLegal, IsPlayedOnce};

/// Commands are played in one way alone, and each daemon's history is legal, so that all that is said of legal histories holds of it.
pub fn scripts_are_played_once()
    ensures once { IsPlayedOnce }
    ensures legal { AreLegal }
{}
