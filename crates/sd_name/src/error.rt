/// Why a text is no service type.
#[derive(Clone, Copy, Debug, PartialEq, Eq)]
pub enum TypeError {
    /// It isn't `_app._tcp` or `_app._udp` with at most 16 subtypes.
    BadType = 1,
}
