/// Why bytes are no event. The bytes are read from the left, and the first fault counts.
#[derive(Clone, Copy, Debug)]
pub enum JsonFault {
    /// The bytes are no JSON text, and their first `at` bytes are the longest beginning of one.
    NotJson { at: u64 },
    /// The byte at `at` opens a 33rd level of brackets and braces.
    Deep { at: u64 },
    /// The text is of another value than an object.
    NotObject,
    /// No memory was found.
    WantOfMemory,
}

impl From<vx_value::WantOfMemory> for JsonFault {
    ghost use Rattle.vx_json.specs.declared.json_fault.JsonFault.TheVariants.{WantOfMemory};
    ghost use Rattle.std.specs.Prelude.{◌≡◌};

    ghost from_gives = { λ _ fault. fault ≡ WantOfMemory };

    fn from(_want: vx_value::WantOfMemory) -> JsonFault {
        JsonFault::WantOfMemory
    }
}
