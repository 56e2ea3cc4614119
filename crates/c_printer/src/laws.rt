//! The printing law: what is printed of a printable unit reads back (ISO/IEC 9899:1999, 6.4, 6.10 and
//! 6.9). Nothing runs here: a caller gets the law, whatever it prints.
ghost use Rattle.std.specs.Prelude.{ℕ, List, map};
ghost use Rattle.std.specs.List.{AllByRecursion};
ghost use Rattle.c_printed.specs.PrintedUnit.{Part, include_beside, part_text, unit_text};
ghost use Rattle.c_printed.specs.Within.{ItemWithin};
ghost use Rattle.c_printed.specs.State.{State, nothing_known};
ghost use Rattle.c_printed.specs.PrintableUnit.{IsBeside, IsHeaderAt, IsSource};
ghost use Rattle.c_printed.specs.Reread.{header_items, source_items, header_macros, source_macros, macro_tokens};
ghost use Rattle.c_printed.specs.Law.{ReadAsUnit};

/// A printed header, beside a source that is its include alone, has no fault; its unit is the items
/// of its parts, and its macros are exactly theirs.
pub fn header_reads_back()
    ensures { (name : List ℕ) (header : List Part) → IsBeside (Some name) name → IsHeaderAt nothing_known header
        → AllByRecursion ItemWithin (header_items header nothing_known)
        → ReadAsUnit name (unit_text header) (part_text (include_beside name)) (header_items header nothing_known) (map macro_tokens (header_macros header nothing_known)) }
{}

/// A printed source beside a printed header that it may include has no fault; its unit is the items
/// of both, with names replaced by what they stand for, and its macros are exactly those of both.
pub fn pair_reads_back()
    ensures { (name : List ℕ) (header source : List Part) (known : State) → IsHeaderAt known header → IsSource name header source
        → AllByRecursion ItemWithin (source_items header source)
        → ReadAsUnit name (unit_text header) (unit_text source) (source_items header source) (map macro_tokens (source_macros header source)) }
{}
