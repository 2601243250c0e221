//! The methods of TURN (RFC 8656, section 17).
ghost use Rattle.std.specs.Prelude.{◌≡◌};
ghost use Rattle.stun_extra.specs.TurnMethods.{method_number, turn_method_of};

use stun_base::message_type::Method;

/// The number of the method Allocate.
pub const ALLOCATE: u16 = 0x003;

/// The number of the method Refresh.
pub const REFRESH: u16 = 0x004;

/// The number of the method Send, which only indications have.
pub const SEND: u16 = 0x006;

/// The number of the method Data, which only indications have.
pub const DATA: u16 = 0x007;

/// The number of the method CreatePermission.
pub const CREATE_PERMISSION: u16 = 0x008;

/// The number of the method ChannelBind.
pub const CHANNEL_BIND: u16 = 0x009;

/// A method of TURN (RFC 8656, section 17).
///
/// # Examples
///
/// ```
/// use seatcrane_stun::extra::turn::TurnMethod;
/// use seatcrane_stun::types::message::BINDING;
///
/// assert_eq!(TurnMethod::Allocate.method().value(), 3);
/// assert_eq!(TurnMethod::of(TurnMethod::Refresh.method()), Some(TurnMethod::Refresh));
/// assert_eq!(TurnMethod::of(BINDING), None);
/// ```
#[derive(Clone, Copy, Debug, PartialEq, Eq)]
pub enum TurnMethod {
    /// A client requests an allocation.
    Allocate,
    /// A client refreshes its allocation, or deletes it.
    Refresh,
    /// A client sends data to a peer through the server.
    Send,
    /// A server passes the data of a peer on to the client.
    Data,
    /// A client permits a peer to send.
    CreatePermission,
    /// A client binds a channel to a peer.
    ChannelBind,
}

impl TurnMethod {
    /// Returns the number of the method.
    pub fn number(self) -> u16
        ensures { result ≡ method_number self }
    {
        match self {
            TurnMethod::Allocate => ALLOCATE,
            TurnMethod::Refresh => REFRESH,
            TurnMethod::Send => SEND,
            TurnMethod::Data => DATA,
            TurnMethod::CreatePermission => CREATE_PERMISSION,
            TurnMethod::ChannelBind => CHANNEL_BIND,
        }
    }

    /// Returns the method as a [`Method`].
    pub fn method(self) -> Method
        ensures { result ≡ method_number self }
    {
        match Method::new(self.number()) {
            Some(method) => method,
            None => unreachable!(),
        }
    }

    /// Returns the method of TURN that has the number of `method`, or `None` if TURN has no method
    /// with this number.
    pub fn of(method: Method) -> Option<TurnMethod>
        ensures { result ≡ turn_method_of method }
    {
        match method.value() {
            ALLOCATE => Some(TurnMethod::Allocate),
            REFRESH => Some(TurnMethod::Refresh),
            SEND => Some(TurnMethod::Send),
            DATA => Some(TurnMethod::Data),
            CREATE_PERMISSION => Some(TurnMethod::CreatePermission),
            CHANNEL_BIND => Some(TurnMethod::ChannelBind),
            _ => None,
        }
    }
}
