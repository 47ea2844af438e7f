//! The fields of a packet by which rules are told apart.

ghost use Rattle.std.specs.Prelude.{◌≡◌};
ghost use Rattle.fs_ranges.specs.Facts.{is_front, kind_of};

/// A field of a packet, by the type of the component that tests it. All but either port and the bits of a fragment are one
/// number. No type is left out: so a field stands for its number without a table.
#[derive(Clone, Copy)]
pub enum Field {
    /// None: always 0.
    Zero = 0,
    /// An address of IPv4.
    DestinationAddress = 1,
    SourceAddress = 2,
    Protocol = 3,
    EitherPort = 4,
    DestinationPort = 5,
    SourcePort = 6,
    IcmpType = 7,
    IcmpCode = 8,
    /// The SYN flag among the TCP flags.
    Syn = 9,
    Length = 10,
    Dscp = 11,
    FragmentBits = 12,
    FlowLabel = 13,
    /// The first 64 bits of a source address of IPv6, by which alone rules are told apart.
    SourceFront = 14,
}

impl Field {
    /// The type of the component that tests it.
    pub(crate) fn kind(self) -> u8
        ensures { result ≡ kind_of self }
    {
        self as u8
    }

    /// Whether it is the front of a source.
    pub(crate) fn is_front(self) -> bool
        ensures { result ≡ is_front self }
    {
        match self {
            Field::SourceFront => true,
            _ => false,
        }
    }
}
