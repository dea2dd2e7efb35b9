//! Laws about the definitions alone: functions without effect, whose contract is the law.
ghost use Rattle.std.specs.Prelude.{◌≡◌, ◌≢◌, ◌↔◌, ℕ, ℤ, ◌+◌, ◌*◌, ◌^◌, ◌<◌, ◌≤◌, List, [], ◌++◌, length, take, slice_index, None, Some, Ok, Err};
ghost use Rattle.std.specs.List.{AllByRecursion};
ghost use Rattle.mvt_base.specs.Rules.{AreOrdered, IsLeast, first};
ghost use Rattle.mvt_wire.specs.declared.fault.WireCause.{WireCause};
ghost use Rattle.mvt_wire.specs.declared.fault.WireCause.TheVariants.{Truncated};
ghost use Rattle.mvt_wire.specs.Varint.{Spells, SpellsNone, spell_cause, short};
ghost use Rattle.mvt_wire.specs.Field.{Content, Entry, IsField, IsFieldAt, StartsNoField, bytes, wire_type};
ghost use Rattle.mvt_wire.specs.Fronts.{number_at, entry_at, rest_cause};
ghost use Rattle.mvt_wire.specs.Packed.{ArePacked, PackedCause, SplitNumbers, packed, packed_rules};
ghost use Rattle.mvt_wire.specs.Rest.{IsRestCause};
ghost use Rattle.mvt_wire.specs.Spelling.{IsFit, IsWholeAs, Plain, short_field, short_numbers, short_payload, spelled};
ghost use Rattle.mvt_wire.specs.Zigzag.{zig, unzig};
ghost use Rattle.mvt_wire.specs.Split.{Split, Whole, split, split_from, behind, no_fields, shifted, shifted_parts};

/// `short` is a spelling, no spelling is shorter, and it is the only one of its length.
pub fn short_varint()
    ensures spells { (n : ℕ) → n < 2 ^ 64 → Spells (short n) n }
    ensures shortest { (b : List ℕ) (n : ℕ) → Spells b n → length (short n) ≤ length b }
    ensures only { (b : List ℕ) (n : ℕ) → ((k : ℕ) → slice_index b k < 256) → Spells b n
        → length b ≡ length (short n) → b ≡ short n }
{}

/// `number_at` gives the number that a prefix spells, or why none does.
pub fn number_function()
    ensures spelled { (front back : List ℕ) (n : ℕ) → Spells front n
        → number_at (front ++ back) ≡ Ok (n, length front) }
    ensures number { (b : List ℕ) (n k : ℕ) → number_at b ≡ Ok (n, k)
        → (k ≤ length b) × Spells (take k b) n }
    ensures none { (b : List ℕ) → SpellsNone b → number_at b ≡ Err (spell_cause b) }
    ensures cause { (b : List ℕ) (c : WireCause) → number_at b ≡ Err c
        → SpellsNone b × (c ≡ spell_cause b) }
{}

/// `entry_at` gives the field that a prefix spells, or why none does.
pub fn field_function()
    ensures spelled { (at : ℕ) (front back : List ℕ) (e : Entry) → IsFieldAt at front e
        → entry_at at (front ++ back) ≡ Ok (e, length front) }
    ensures field { (at : ℕ) (b : List ℕ) (e : Entry) (k : ℕ) → entry_at at b ≡ Ok (e, k)
        → (1 ≤ k) × (k ≤ length b) × IsFieldAt at (take k b) e }
    ensures none { (at : ℕ) (b : List ℕ) → StartsNoField b → entry_at at b ≡ Err (rest_cause b) }
    ensures cause { (at : ℕ) (b : List ℕ) (c : WireCause) → entry_at at b ≡ Err c
        → StartsNoField b × IsRestCause b c }
    ensures end { StartsNoField [] }
{}

/// A list has one split.
pub fn one_split()
    ensures { (b : List ℕ) (es fs : List Entry) (r s : List ℕ) → Split b es r → Split b fs s
        → (es ≡ fs) × (r ≡ s) }
{}

/// A rest has one cause, `rest_cause`; unless that is Truncated, no later bytes change it.
pub fn one_cause()
    ensures there { (b : List ℕ) → StartsNoField b → IsRestCause b (rest_cause b) }
    ensures only { (b : List ℕ) (c : WireCause) → IsRestCause b c
        → StartsNoField b × (c ≡ rest_cause b) }
    ensures stays { (b more : List ℕ) (c : WireCause) → c ≢ Truncated → IsRestCause b c
        → IsRestCause (b ++ more) c }
    ensures end { rest_cause [] ≡ Truncated }
{}

/// `split` is the split of a list.
pub fn split_function()
    ensures is { (b : List ℕ) → Split b (split b).fields (split b).rest }
    ensures only { (b rest : List ℕ) (es : List Entry) → Split b es rest
        → (es ≡ (split b).fields) × (rest ≡ (split b).rest) }
    ensures place { (b : List ℕ) → (split b).rest_at + length (split b).rest ≡ length b }
    ensures cause { (b : List ℕ) (c : WireCause) → IsRestCause (split b).rest c
        → c ≡ rest_cause (split b).rest }
    ensures count { (b : List ℕ) → length (split b).fields + length (split b).rest ≤ length b }
    ensures rest { (b : List ℕ) → StartsNoField (split b).rest }
    ensures whole { (b : List ℕ) → (split b).rest ≡ [] → Whole b (split b).fields }
{}

/// A split goes step by step: the field at the front and then the split of what is after it.
pub fn split_steps()
    ensures field { (at : ℕ) (front back : List ℕ) (e : Entry) → IsFieldAt at front e
        → split_from at (front ++ back) ≡ behind e (split_from (at + length front) back) }
    ensures none { (at : ℕ) (b : List ℕ) → StartsNoField b → split_from at b ≡ no_fields at b }
    ensures place { (at : ℕ) (b : List ℕ)
        → (split_from at b).rest_at + length (split_from at b).rest ≡ at + length b }
    ensures rest { (at : ℕ) (b : List ℕ) → StartsNoField (split_from at b).rest }
{}

/// A list that stands k bytes further on splits the same way, with each place k greater.
pub fn split_shifts()
    ensures field { (k at : ℕ) (b : List ℕ) (e : Entry) → IsFieldAt at b e
        → IsFieldAt (k + at) b (shifted k e) }
    ensures split { (k at : ℕ) (b : List ℕ) → split_from (k + at) b
        ≡ shifted_parts k (split_from at b) }
{}

/// More bytes change no field that is there, and no cause but Truncated.
pub fn front_stays()
    ensures field { (at k : ℕ) (b more : List ℕ) (e : Entry) → entry_at at b ≡ Ok (e, k)
        → entry_at at (b ++ more) ≡ Ok (e, k) }
    ensures cause { (at : ℕ) (b more : List ℕ) (c : WireCause) → c ≢ Truncated
        → entry_at at b ≡ Err c → entry_at at (b ++ more) ≡ Err c }
    ensures rest { (b more : List ℕ) → StartsNoField b → rest_cause b ≢ Truncated
        → StartsNoField (b ++ more) × (rest_cause (b ++ more) ≡ rest_cause b) }
{}

/// The split of a longer list is the fields that were there and then the split of the rest with
/// what is after it.
pub fn split_more()
    ensures fields { (at : ℕ) (b more : List ℕ) → (split_from at (b ++ more)).fields
        ≡ (split_from at b).fields ++ (split_from (split_from at b).rest_at
        ((split_from at b).rest ++ more)).fields }
    ensures rest { (at : ℕ) (b more : List ℕ) → (split_from at (b ++ more)).rest
        ≡ (split_from (split_from at b).rest_at ((split_from at b).rest ++ more)).rest }
    ensures place { (at : ℕ) (b more : List ℕ) → (split_from at (b ++ more)).rest_at
        ≡ (split_from (split_from at b).rest_at ((split_from at b).rest ++ more)).rest_at }
{}

/// `packed` is the numbers of a list and its rest.
pub fn packed_split()
    ensures is { (b : List ℕ) → SplitNumbers b (packed b).numbers (packed b).rest }
    ensures only { (b ns rest : List ℕ) → SplitNumbers b ns rest
        → (ns ≡ (packed b).numbers) × (rest ≡ (packed b).rest) }
    ensures count { (b : List ℕ) → length (packed b).numbers + length (packed b).rest ≤ length b }
{}

/// A list breaks no rule of packed numbers exactly if it is packed numbers, and then only those of
/// `packed`.
pub fn packed_function()
    ensures clean { (b : List ℕ) → first (packed_rules b) ≡ None → ArePacked b (packed b).numbers }
    ensures only { (b ns : List ℕ) → ArePacked b ns
        → (first (packed_rules b) ≡ None) × ((packed b).numbers ≡ ns) }
{}

/// The first of the rules of packed numbers is the broken one of least rank.
pub fn packed_is_least()
    ensures ordered { (b : List ℕ) → AreOrdered (packed_rules b) }
    ensures least { (b : List ℕ) (c : PackedCause) → (first (packed_rules b) ≡ Some c)
        ↔ IsLeast (packed_rules b) c }
{}

/// The shortest spellings of numbers, joined, are packed just so, and only so.
pub fn short_packed()
    ensures packed { (ns : List ℕ) → AllByRecursion (λ n. n < 2 ^ 32) ns
        → ArePacked (short_numbers ns) ns }
    ensures only { (ns ms : List ℕ) → AllByRecursion (λ n. n < 2 ^ 32) ns
        → ArePacked (short_numbers ns) ms → ms ≡ ns }
{}

/// The shortest spellings of fields, joined, are just these fields.
pub fn spelled_whole()
    ensures whole { (fs : List Plain) → AllByRecursion IsFit fs → IsWholeAs (spelled fs) fs }
    ensures field { (f : Plain) → IsFit f
        → IsField (short_field f.number f.content) f.number f.content }
    ensures only { (b : List ℕ) (fs gs : List Plain) → IsWholeAs b fs → IsWholeAs b gs → fs ≡ gs }
{}

/// How long the shortest spellings are.
pub fn short_lengths()
    ensures some { (n : ℕ) → 1 ≤ length (short n) }
    ensures most { (n : ℕ) → length (short n) ≤ 10 }
    ensures one { (n : ℕ) → n < 128 → length (short n) ≡ 1 }
    ensures five { (n : ℕ) → n < 2 ^ 32 → length (short n) ≤ 5 }
    ensures field { (number : ℕ) (c : Content) → length (short_field number c)
        ≡ length (short (8 * number + wire_type c)) + length (short_payload c) }
    ensures bytes { (number : ℕ) (d : List ℕ)
        → length d + 2 ≤ length (short_field number (bytes d)) }
    ensures numbers { (ns : List ℕ) → length ns ≤ length (short_numbers ns) }
{}

/// Packed numbers of 32 bits take five bytes each at most.
pub fn packed_lengths()
    ensures { (ns : List ℕ) → AllByRecursion (λ n. n < 2 ^ 32) ns
        → length (short_numbers ns) ≤ 5 * length ns }
{}

/// Fields after others are spelled after them.
pub fn spelled_parts()
    ensures { (fs gs : List Plain) → spelled (fs ++ gs) ≡ spelled fs ++ spelled gs }
{}

/// A field of bytes whose tag takes one byte takes at most eleven bytes more than they are.
pub fn bytes_lengths()
    ensures { (number : ℕ) (d : List ℕ) → number < 16
        → length (short_field number (bytes d)) ≤ 11 + length d }
{}

/// `unzig` gives the number of a zigzag code, and `zig` the code of a number.
pub fn zigzag_function()
    ensures number { (z : ℤ) → unzig (zig z) ≡ z }
    ensures code { (n : ℕ) → zig (unzig n) ≡ n }
{}
