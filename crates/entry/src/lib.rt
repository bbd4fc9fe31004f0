// An entry (document 02, No. 1): one byte of kind, then a body whose length the kind fixes. The one
// place that knows this layout; what kinds there are and what their bodies say is each reader's own.
#![tactic(auto)]

ghost use Rattle.std.specs.Prelude.{◌≡◌, ◌<◌, ◌^◌};
ghost use Rattle.entry.specs.Entry.{kind_of, whole_of};

// The kind of the entry that begins these bytes; 0 where there are none.
pub fn kind(b: &[u8]) -> u64
    ensures { result ≡ kind_of b.now }
{
    words::byte(b, 0)
}

// The entry that begins these bytes is whole: its kind and a body of that many bytes.
pub fn whole(b: &[u8], body: usize) -> bool
    ensures { result ≡ whole_of body b.now }
{
    body < b.len()
}
