//! A message as it was sent: its head and its body.
use xa_value::Items;

/// One field line of a head (RFC 9112, section 5): its name, and its value without the white space around it.
#[derive(Debug, Drop)]
pub struct Field {
    /// The name as it was sent. Names compare case-insensitively.
    pub name: Items<u8>,
    /// The value without the white space around it.
    pub value: Items<u8>,
}

/// One whole request message (RFC 9112, section 2.1).
#[derive(Debug, Drop)]
pub struct Message {
    /// The method's token (RFC 9110, section 9).
    pub method: Items<u8>,
    /// The request target as it was sent (RFC 9112, section 3.2).
    pub target: Items<u8>,
    /// The field lines, in order.
    pub fields: Items<Field>,
    /// The bytes of the body.
    pub body: Items<u8>,
    /// Whether no further message of its stream follows it (RFC 9112, section 9.3).
    pub close: bool,
}
