ghost use Rattle.std.specs.Prelude.{◌≡◌, ◌==◌, ◌&&◌, ◌||◌, ◌<◌, ◌∷◌, not, length, option_copied, position, IfSome};
ghost use Rattle.std.specs.List.{list_all, list_any, slice_split};
ghost use Rattle.std.specs.Char.{is_ascii_alphabetic, is_ascii_alphanumeric};
ghost use Rattle.sd_name.specs.Pieces.{pieces_of};
ghost use Rattle.sd_name.specs.ServiceTypes.{is_control, hyphens_apart, is_app, is_app_label, is_transport, is_end, is_subtype, is_service_label};

/// Whether these bytes may be the label of a service: 1 to 63 bytes without ASCII control characters. (RFC 6763 section 4.1.1)
#[tactic(auto, unfolding(crate::specs::ServiceTypes::is_service_label))]
pub fn is_service_label(label: &[u8]) -> bool
    ensures { result ≡ is_service_label label.now }
{
    (1..=63).contains(&label.len()) && has_no_control(label)
}

fn has_no_control(label: &[u8]) -> bool
    ensures { result ≡ list_all (λ b. not (is_control b)) label.now }
{
    label.iter().all(|b| !b.is_ascii_control())
}

/// Whether these bytes are a subtype.
pub(crate) fn is_subtype(bytes: &[u8]) -> bool
    ensures { result ≡ is_subtype bytes.now }
{
    (1..=63).contains(&bytes.len()) && are_subtype_bytes(bytes)
}

fn are_subtype_bytes(bytes: &[u8]) -> bool
    ensures { result ≡ list_all (λ b. not (is_control b || b == 44 || b == 46)) bytes.now }
{
    bytes
        .iter()
        .all(|b| !(b.is_ascii_control() || *b == b',' || *b == b'.'))
}

/// Whether these are the labels of a type, and nothing but perhaps a final dot stands behind them.
pub(crate) fn are_type_labels(app: &[u8], transport: &[u8], rest: Option<&[u8]>) -> bool
    ensures { result ≡ (is_app_label app.now && is_transport transport.now && is_end (pieces_of 46 (option_copied rest.entry))) }
{
    is_app_label(app) && is_transport(transport) && is_final(rest)
}

// Whether nothing stands behind the transport, perhaps behind a dot.
fn is_final(rest: Option<&[u8]>) -> bool
    ensures { result ≡ is_end (pieces_of 46 (option_copied rest.entry)) }
{
    match rest {
        Some(rest) => rest.is_empty(),
        None => true,
    }
}

// Whether these bytes are the label of a transport.
fn is_transport(bytes: &[u8]) -> bool
    ensures { result ≡ is_transport bytes.now }
{
    bytes == b"_tcp".as_slice() || bytes == b"_udp".as_slice()
}

// Whether these bytes are an underscore and the name of a protocol.
fn is_app_label(bytes: &[u8]) -> bool
    ensures { result ≡ is_app_label bytes.now }
{
    match bytes.split_first() {
        Some((first, app)) => *first == b'_' && is_app(app),
        None => false,
    }
}

fn is_app(bytes: &[u8]) -> bool
    ensures { result ≡ is_app bytes.now }
{
    bytes.len() <= 15 && are_app_bytes(bytes) && has_letter(bytes) && has_hyphens_apart(bytes)
}

fn are_app_bytes(bytes: &[u8]) -> bool
    ensures { result ≡ list_all (λ b. is_ascii_alphanumeric b || b == 45) bytes.now }
{
    bytes
        .iter()
        .all(|b| b.is_ascii_alphanumeric() || *b == b'-')
}

fn has_letter(bytes: &[u8]) -> bool
    ensures { result ≡ list_any is_ascii_alphabetic bytes.now }
{
    bytes.iter().any(|b| b.is_ascii_alphabetic())
}

fn has_hyphens_apart(bytes: &[u8]) -> bool
    ensures { result ≡ hyphens_apart bytes.now }
{
    bytes.split(|b| *b == b'-').all(|part| !part.is_empty())
}

/// The first of the pieces between such bytes, and what stands behind it where another piece follows.
pub(crate) fn cut(bytes: &[u8], byte: u8) -> (&[u8], Option<&[u8]>)
    ensures pieces { slice_split (λ b. b == byte) bytes.now ≡ result.0.now ∷ pieces_of byte (option_copied result.1) }
    ensures shorter { IfSome result.1 (λ rest. length rest.now < length bytes.now) }
{
    match place_of(bytes, byte) {
        Some(place) => (&bytes[..place], Some(&bytes[place + 1..])),
        None => (bytes, None),
    }
}

fn place_of(bytes: &[u8], byte: u8) -> Option<usize>
    ensures { result ≡ position (λ b. b == byte) bytes.now }
{
    bytes.iter().position(|b| *b == byte)
}
