/// Where a reader stands inside a text.
#[derive(Clone, Copy)]
pub enum TextPlace {
    /// Between characters.
    Plain,
    /// Before the last byte of a character.
    Last,
    /// Before the last two bytes of a character.
    Two,
    /// Likewise, and the next is at least A0.
    TwoHigh,
    /// Likewise, and the next is at most 9F.
    TwoLow,
    /// Before the last three bytes of a character.
    Three,
    /// Likewise, and the next is at least 90.
    ThreeHigh,
    /// Likewise, and the next is at most 8F.
    ThreeLow,
    /// Behind a backslash.
    Escaped,
    /// Before the first of four digits.
    Hex1,
    /// Behind one of four digits.
    Hex2(u8),
    /// Behind two of them.
    Hex3(u8, u8),
    /// Behind three of them.
    Hex4(u8, u8, u8),
    /// Behind the first surrogate of a pair.
    Backslash(u16),
    /// Behind it and a backslash.
    Letter(u16),
    /// Before the first digit of the second surrogate.
    Low1(u16),
    /// Behind one of its digits.
    Low2(u16, u8),
    /// Behind two of them.
    Low3(u16, u8, u8),
    /// Behind three of them.
    Low4(u16, u8, u8, u8),
}
