//! The text of a part by address, read again.

ghost use Rattle.std.specs.Prelude.{◌≡◌, None, true};
ghost use Rattle.cg_format.specs.declared.head.PartHead.{PartHead};
ghost use Rattle.cg_read.specs.AddressReading.{AddrContents, Reads, ReadsLines, first_bad_of, is_addr_file};
ghost use Rattle.cg_read.specs.Profiles.{Contents, IsProfile};
ghost use Rattle.sym_map.specs.SymbolMap.{IsSound, SymbolMap};
ghost use Rattle.addr_rows.specs.Plain.{plain};
ghost use Rattle.addr_rows.specs.Rows.{AddrListed};
ghost use Rattle.addr_rows.specs.Texts.{addr_text};
ghost use Rattle.profile_files.specs.Reading.{events_of};
ghost use Rattle.reads_back.specs.Joined.{events_in};
ghost use Rattle.reads_back.specs.Rows.{IsOfRows, command_of};
ghost use Rattle.report_laws.specs.Rows.{AreEntriesSmall, AreWritable, IsOfAddrRows};

/// The text of a part by address is a file whose positions have two parts, and has no bad line. It reads as the profile
/// of its rows with their addresses, with its functions and files in any numbering, and as no other.
pub fn parts_by_address_read_as_their_rows()
    ensures two_parts { (head : PartHead) (rows : AddrListed) (m : SymbolMap) → IsSound m → AreEntriesSmall m
        → AreWritable m rows → is_addr_file (addr_text head rows m) ≡ true }
    ensures sound { (head : PartHead) (rows : AddrListed) (m : SymbolMap) → IsSound m → AreEntriesSmall m
        → AreWritable m rows → first_bad_of (addr_text head rows m) ≡ None }
    // The events that it shows are those of its head.
    ensures events { (head : PartHead) (rows : AddrListed) (m : SymbolMap) → IsSound m → AreEntriesSmall m
        → AreWritable m rows → events_of (addr_text head rows m) ≡ events_in head }
    ensures reads { (head : PartHead) (rows : AddrListed) (m : SymbolMap) (p : AddrContents) → IsSound m
        → AreEntriesSmall m → AreWritable m rows → IsProfile p.lines
        → IsOfAddrRows head (command_of head) rows m p → Reads (addr_text head rows m) p }
    ensures only { (head : PartHead) (rows : AddrListed) (m : SymbolMap) (p : AddrContents) → IsSound m
        → AreEntriesSmall m → AreWritable m rows → Reads (addr_text head rows m) p
        → IsOfAddrRows head (command_of head) rows m p }
    // Where the addresses are let go, it reads as the profile of the plain rows.
    ensures without { (head : PartHead) (rows : AddrListed) (m : SymbolMap) (p : Contents) → IsSound m
        → AreEntriesSmall m → AreWritable m rows → ReadsLines (addr_text head rows m) p
        → IsOfRows head (command_of head) (plain rows) m p }
{}
