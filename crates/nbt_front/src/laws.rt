//! What holds of a front, whatever the code does: laws over the definitions alone; and that the code's numbers are theirs.

ghost use Rattle.std.specs.Prelude.{◌≡◌, ◌⊎◌, ℕ, [], Some};
ghost use Rattle.nbt_name.specs.Wire.{NameValue};
ghost use Rattle.nbt_name.specs.declared.addr.Kind.{Kind};
ghost use Rattle.nbt_packet.specs.Message.{MessageValue, query, release};
ghost use Rattle.nbt_packet.specs.declared.message.Registration.{Registration};
ghost use Rattle.nbt_lease.specs.Lease.{Rows};
ghost use Rattle.nbt_server.specs.Serving.{active_error, refusal};
ghost use Rattle.nbt_front.specs.Deciding.{Claims, Decides, DeskValue, FrontValue, IsOfFixed, IsUnallowed, Passes, WouldBeSecond, renewed};
ghost use Rattle.nbt_front.specs.FixedNames.{FixedValue, fixed_of};
ghost use Rattle.nbt_front.specs.Standing.{IsLeased};
ghost use Rattle.nbt_front.specs.declared.deciding.Decision.{Decision};
ghost use Rattle.nbt_front.specs.declared.deciding.Decision.TheVariants.{FixedConfirmed, FixedRefused};
ghost use Rattle.nbt_front.specs.Numbers.{addrs_most, names_most, networks_most};

use crate::fixed::ADDRS_MOST;
use crate::names::NAMES_MOST;
use crate::network_file::NETWORKS_MOST;

/// A front decides of a message in one way, and with one reply.
pub fn one_decision()
    ensures { (desk : DeskValue) (now ip : ℕ) (m : MessageValue) (c d : Decision) (r s : MessageValue) → Decides desk now ip m c r → Decides desk now ip m d s → (c ≡ d) × (r ≡ s) }
{}

/// It decides of claims of a fixed name, of the other requests that are about one in whose way no lease stands, of claims of a name that another
/// machine may hold by what was fixed before, and of claims whose sender may not register; and of nothing else.
pub fn what_is_decided()
    ensures decided { (desk : DeskValue) (now ip : ℕ) (m : MessageValue) (d : Decision) (r : MessageValue) → Decides desk now ip m d r → IsOfFixed desk now ip m ⊎ IsUnallowed desk.front ip m }
    ensures fixed { (desk : DeskValue) (now ip : ℕ) (m : MessageValue) → IsOfFixed desk now ip m → (d : Decision) × (r : MessageValue) × Decides desk now ip m d r }
    ensures unallowed { (desk : DeskValue) (now ip : ℕ) (m : MessageValue) → IsUnallowed desk.front ip m → (d : Decision) × (r : MessageValue) × Decides desk now ip m d r }
{}

/// A front without networks and names, before which no names were fixed otherwise, decides of nothing.
pub fn an_open_front_decides_nothing()
    ensures { (desk : DeskValue) (now ip : ℕ) (m : MessageValue) → desk.front.allowed ≡ [] → desk.front.fixed ≡ [] → desk.past ≡ [] → Passes desk now ip m }
{}

/// While a lease stands in the way of a fixed name, each claim of that name is refused, whoever sends it; a query for it, and a release of
/// it, are the server's.
pub fn a_lease_stands_until_it_ends()
    ensures refused { (desk : DeskValue) (now ip : ℕ) (m : MessageValue) (r : Registration) (fixed : FixedValue) → Claims m r → fixed_of desk.front.fixed r.name ≡ Some fixed → IsLeased desk.kept now r.name
        → Decides desk now ip m (FixedRefused r.name) (refusal active_error r) }
    ensures queried { (desk : DeskValue) (now ip id : ℕ) (name : NameValue) → IsLeased desk.kept now name → Passes desk now ip (query id name) }
    ensures released { (desk : DeskValue) (now ip id : ℕ) (name : NameValue) (kind : Kind) (addr : ℕ) → IsLeased desk.kept now name → Passes desk now ip (release id name kind addr) }
{}

/// Once a front took the place of another one, a claim that would make a second holder beside a machine of the other one's file is decided, and
/// not confirmed, for the longest lease.
pub fn what_was_fixed_waits()
    ensures decided { (old : DeskValue) (front : FrontValue) (live : Rows) (at now ip : ℕ) (m : MessageValue) (r : Registration) → WouldBeSecond old at now ip r → Claims m r → ¬ Passes (renewed front live at old) now ip m }
    ensures not_confirmed { (old : DeskValue) (front : FrontValue) (live : Rows) (at now ip : ℕ) (m reply : MessageValue) (r : Registration) → WouldBeSecond old at now ip r → Claims m r → ¬ Decides (renewed front live at old) now ip m FixedConfirmed reply }
{}

/// 65,536 names may be fixed, and 48 addresses of a group; a file names 1,024 networks at most (our profile).
pub fn numbers()
    ensures names { NAMES_MOST ≡ names_most }
    ensures networks { NETWORKS_MOST ≡ networks_most }
    ensures addrs { ADDRS_MOST ≡ addrs_most }
{}
