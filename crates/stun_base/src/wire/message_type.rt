//! The class, the method and the type of a message (RFC 8489, section 5).

ghost use Rattle.std.specs.Prelude.{◌≡◌, ◌<◌, ◌^◌, ◌↔◌, IsTrue, IsSome, IfSome, Some, None};
ghost use Rattle.stun_base.specs.MessageType.{class_of, method_of, type_number, IsResponse};

use std::marker::Model;

/// The class of a message: two bits of its type.
#[derive(Debug, Clone, Copy, PartialEq, Eq, Hash)]
pub enum MessageClass {
    /// A request, which is answered by a success or an error response.
    Request,
    /// An indication, which is not answered.
    Indication,
    /// A success response: the request succeeded.
    Success,
    /// An error response: the request failed.
    Error,
}

impl MessageClass {
    /// Returns `true` for the two classes of responses: success and error.
    pub fn is_response(self) -> bool
        ensures { IsTrue result ↔ IsResponse self }
    {
        matches!(&self, MessageClass::Success | MessageClass::Error)
    }
}

/// The method of a message: a 12-bit number.
///
/// Contracts: the value is the number.
#[derive(Debug, Clone, Copy, PartialEq, Eq, Hash)]
pub struct Method(u16);

impl Model for Method {
    ghost use Rattle.std.specs.Prelude.{ℕ, ◌<◌, ◌^◌};

    ghost Value = { ℕ };

    ghost view = { λ method. method.0 };

    ghost invariant = { λ method. method.0 < 2 ^ 12 };

    ghost inverse = { λ number. record { 0 = number } };
}

/// The Binding method (RFC 8489, section 18.2).
pub const BINDING: Method = Method(0x001);

impl Method {
    /// Creates a method from a number. Returns `None` if the number does not fit in 12 bits.
    pub fn new(number: u16) -> Option<Method>
        ensures fits { IsSome result ↔ (number < 2 ^ 12) }
        ensures value { IfSome result (λ method. method ≡ number) }
    {
        if number < 0x1000 {
            Some(Method(number))
        } else {
            None
        }
    }

    /// Returns the method as a number, which is less than 2^12.
    pub fn value(self) -> u16
        ensures value { result ≡ self }
        ensures fits { result < 2 ^ 12 }
    {
        self.0
    }
}

/// The type of a message: its class and its method, combined into a 14-bit number (RFC 8489,
/// section 5).
///
/// From the highest bit to the lowest, the number consists of M11 to M7, C1, M6 to M4, C0 and M3 to
/// M0, where M is the method and C the class.
///
/// Contracts: the value is the number.
#[derive(Debug, Clone, Copy, PartialEq, Eq, Hash)]
pub struct MessageType(u16);

impl Model for MessageType {
    ghost use Rattle.std.specs.Prelude.{ℕ, ◌<◌, ◌^◌};

    ghost Value = { ℕ };

    ghost view = { λ kind. kind.0 };

    ghost invariant = { λ kind. kind.0 < 2 ^ 14 };

    ghost inverse = { λ number. record { 0 = number } };
}

impl MessageType {
    /// Creates a type from a number. Returns `None` if the number does not fit in 14 bits.
    pub(crate) fn from_number(number: u16) -> Option<MessageType>
        ensures fits { IsSome result ↔ (number < 2 ^ 14) }
        ensures value { IfSome result (λ kind. kind ≡ number) }
    {
        if number < 0x4000 {
            Some(MessageType(number))
        } else {
            None
        }
    }

    /// Combines a class and a method into a type.
    pub fn from_class_method(class: MessageClass, method: Method) -> MessageType
        ensures value { result ≡ type_number class method }
        ensures class { class_of result ≡ class }
        ensures method { method_of result ≡ method }
    {
        let (high, low): (u16, u16) = match class {
            MessageClass::Request => (0, 0),
            MessageClass::Indication => (0, 1),
            MessageClass::Success => (1, 0),
            MessageClass::Error => (1, 1),
        };
        let method = method.value();
        MessageType(method % 16 + low * 16 + method / 16 % 8 * 32 + high * 256 + method / 128 * 512)
    }

    /// Returns the type as a number, which is less than 2^14. A message starts with this number, in
    /// network order.
    pub fn value(self) -> u16
        ensures value { result ≡ self }
        ensures fits { result < 2 ^ 14 }
    {
        self.0
    }

    /// Returns the class of the message.
    pub fn class(self) -> MessageClass
        ensures { result ≡ class_of self }
    {
        match (self.0 / 256 % 2, self.0 / 16 % 2) {
            (0, 0) => MessageClass::Request,
            (0, _) => MessageClass::Indication,
            (_, 0) => MessageClass::Success,
            (_, _) => MessageClass::Error,
        }
    }

    /// Returns the method of the message.
    pub fn method(self) -> Method
        ensures { result ≡ method_of self }
    {
        Method(self.0 % 16 + self.0 / 32 % 8 * 16 + self.0 / 512 % 32 * 128)
    }

    /// Returns `true` if the message has this class.
    pub fn has_class(self, class: MessageClass) -> bool
        ensures { IsTrue result ↔ (class_of self ≡ class) }
    {
        self.class() == class
    }

    /// Returns `true` if the message is a response, either a success or an error.
    pub fn is_response(self) -> bool
        ensures { IsTrue result ↔ IsResponse (class_of self) }
    {
        self.class().is_response()
    }
}
