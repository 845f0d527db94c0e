//! Laws on files and on changes: each is the contract of a function that does nothing.

ghost use Rattle.std.specs.Prelude.{◌≡◌, ◌<◌, ◌≤◌, ◌+◌, ℕ, List, [], ◌∷◌, ◌++◌, length, take};
ghost use Rattle.nbt_port.specs.PortCalls.{Chain};
ghost use Rattle.nbt_lease.specs.Lease.{Leases, Rows};
ghost use Rattle.nbt_text.specs.Lines.{one_line};
ghost use Rattle.nbt_store.specs.declared.change.Change.{Change};
ghost use Rattle.nbt_store.specs.declared.header.Header.{Header};
ghost use Rattle.nbt_store.specs.declared.disk_store.DiskStore.{DiskStore};
ghost use Rattle.nbt_store.specs.declared.form.Form.{Form};
ghost use Rattle.nbt_store.specs.declared.form.Form.TheVariants.{Three};
ghost use Rattle.nbt_store.specs.Calls.{StoreCall, WentWell, kept_rows, MayLeaveAfter};
ghost use Rattle.nbt_store.specs.Changes.{MayLeave, after_all};
ghost use Rattle.nbt_store.specs.Checksum.{checksum, prime};
ghost use Rattle.nbt_store.specs.Crashes.{CrashLeaves, folder_of};
ghost use Rattle.nbt_store.specs.DiskCalls.{DiskCall};
ghost use Rattle.nbt_store.specs.DiskStores.{Asks, AskInTurn, IsNewFile, StoreDoes, Tail, disk_of, tail_at, tail_of};
ghost use Rattle.nbt_store.specs.Lines.{IsClosed, IsFile, IsLine};
ghost use Rattle.nbt_store.specs.Records.{IsRecord};
ghost use Rattle.nbt_store.specs.Silence.{by_new_clock, unseen};
ghost use Rattle.nbt_store.specs.declared.silence.Seen.{Seen};
ghost use Rattle.nbt_store.specs.declared.times.Times.{Times};

use crate::disk::Disk;

/// What was written is read: with one line more a file has one change more, and its last line has its end again.
pub fn written_is_read()
    ensures file { (octets line : List ℕ) (h : Header) (cs : List Change) (c : Change) (sum next : ℕ) → IsFile octets Three h cs sum → IsClosed octets → IsLine line → IsRecord Three sum line c next → IsFile (octets ++ one_line line) Three h (cs ++ c ∷ []) next }
    ensures closed { (octets line : List ℕ) → IsClosed (octets ++ one_line line) }
{}

/// Octets are a file in one way at most: its form, its header, its changes and its last checksum are what they are. So what is loaded of
/// what a crash left is what it left.
pub fn a_file_has_one_reading()
    ensures { (octets : List ℕ) (form other : Form) (h g : Header) (cs ds : List Change) (last end : ℕ) → IsFile octets form h cs last → IsFile octets other g ds end → (form ≡ other) × (h ≡ g) × (cs ≡ ds) × (last ≡ end) }
{}

/// What a crash leaves of a file, cut at any octet that is no earlier than what was synced, is a file of the first changes: of
/// all that were synced, at least.
pub fn a_crash_leaves_the_first_changes()
    ensures { (synced more : List ℕ) (h : Header) (kept all : List Change) (sum last k : ℕ) → IsFile synced Three h kept sum → IsFile (synced ++ more) Three h all last → length synced ≤ k
        → (left : List Change) × (end : ℕ) × IsFile (take k (synced ++ more)) Three h left end × MayLeave all (length kept) left }
{}

/// The calls of a store over a disk ask the disk, in turn, what such calls ask.
pub fn calls_of_a_store_ask_in_turn<D: Disk>()
    ensures { (old new : DiskStore D) (calls : List StoreCall) → Chain (StoreDoes D.does) old calls new → (asked : List DiskCall) × Chain D.does (disk_of old) asked (disk_of new) × AskInTurn calls (tail_of old) asked (tail_of new) }
{}

/// Whatever a crash leaves of a disk, by the premise on it, is a file of changes that the calls of a store over it may leave: after
/// calls that went well since it was opened with these leases, and within one more call, or after it, whatever came of that. So it is also
/// where a new file is written beside it, part by part, while changes go on.
pub fn a_crash_of_the_disk_leaves_what_calls_may_leave()
    ensures between { (text : List ℕ) (h : Header) (rows : Rows) (sum : ℕ) (last : Tail) (calls : List StoreCall) (asked : List DiskCall) (left : List ℕ) → IsNewFile text h rows sum → AskInTurn calls (tail_at sum) asked last → WentWell calls → CrashLeaves (folder_of text) asked left
        → (now : Header) × (changes : List Change) × (end : ℕ) × IsFile left Three now changes end × MayLeaveAfter (kept_rows h.last rows) calls changes }
    ensures within { (text : List ℕ) (h : Header) (rows : Rows) (sum : ℕ) (mid next : Tail) (calls : List StoreCall) (last : StoreCall) (asked tail : List DiskCall) (left : List ℕ) → IsNewFile text h rows sum → AskInTurn calls (tail_at sum) asked mid → WentWell calls → Asks last mid tail next
        → CrashLeaves (folder_of text) (asked ++ tail) left → (now : Header) × (changes : List Change) × (end : ℕ) × IsFile left Three now changes end × MayLeaveAfter (kept_rows h.last rows) (calls ++ last ∷ []) changes }
{}

/// Octets that differ in one alone have different checksums, behind whatever stood before them; and so have the same octets behind what
/// had different ones. So once a line isn't what it was, none behind it is.
pub fn one_octet_changes_the_checksum()
    ensures octet { (sum : ℕ) (before behind : List ℕ) (x y : ℕ) → sum < prime → x < 256 → y < 256 → checksum sum (before ++ x ∷ behind) ≡ checksum sum (before ++ y ∷ behind) → x ≡ y }
    ensures chain { (sum other : ℕ) (octets : List ℕ) → sum < prime → other < prime → checksum sum octets ≡ checksum other octets → sum ≡ other }
{}

/// Changes are made one after the other.
pub fn changes_go_in_turn()
    ensures { (cs ds : List Change) (leases : Leases) → after_all (cs ++ ds) leases ≡ after_all ds (after_all cs leases) }
{}

/// A clock that goes on from the last time of the file reads that time at the start, as much later as all times of the file count then,
/// and is as much ahead of the machine's clock. The server serves by it only when it reads no less than any time at which the one that
/// kept the file may have served: a second more than that last time.
pub fn a_new_clock_begins_at_the_last_time()
    ensures last { (h : Header) (times : Times) (seen : Seen) → (by_new_clock h times seen).reads ≡ times.last + (by_new_clock h times seen).shift }
    ensures machine { (h : Header) (times : Times) (seen : Seen) → (by_new_clock h times seen).reads ≡ seen.monotonic + (by_new_clock h times seen).ahead }
    ensures served { (h : Header) (times : Times) (seen : Seen) (was : ℕ) → was ≤ times.last + unseen → was + (by_new_clock h times seen).shift ≤ (by_new_clock h times seen).serves }
{}
