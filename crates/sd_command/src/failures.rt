// Why the program ended, in words for a person. No clause speaks of it.
use crate::ending::Ending;
use crate::help::HELP;

/// What the codes behind `refused` mean.
const REFUSED: &str = "dns-sd: the daemon refused the request. The codes:
  -65540  it is malformed: a service type, say, is one as _ipp._tcp
  -65544  its name is outside local, or there is no host to register at
  -65548  the name is held
  -65553  a limit was reached";

/// What is said of a status. Of one that needs no words there is nothing, nor of a missing daemon, of which the plug has told.
pub fn why(status: u8) -> Option<&'static str> {
    ENDINGS
        .iter()
        .find(|(ending, _)| *ending as u8 == status)
        .map(|(_, why)| *why)
}

/// What is said of each ending.
const ENDINGS: [(Ending, &str); 7] = [
    (Ending::Usage, HELP),
    (Ending::Refused, REFUSED),
    (Ending::Ended, "dns-sd: the daemon ended the connection"),
    (Ending::WriteFault, "dns-sd: the output failed"),
    (Ending::NoMemory, "dns-sd: out of memory"),
    (Ending::BadFrame, "dns-sd: what came is no item"),
    (Ending::TooMany, "dns-sd: too many items came"),
];
