//! What holds of leases, whatever the code does: laws over the definitions alone.

ghost use Rattle.std.specs.Prelude.{◌≡◌, ◌≢◌, ℕ, ◌+◌, ◌*◌, ◌<◌, ◌≤◌, ◌↔◌, List, [], ◌∷◌, ◌++◌, filter, Contains, Result, Ok};
ghost use Rattle.nbt_name.specs.Wire.{NameValue};
ghost use Rattle.nbt_name.specs.declared.addr.Kind.TheVariants.{Group};
ghost use Rattle.nbt_lease.specs.declared.fault.GrantFault.{GrantFault};
ghost use Rattle.nbt_lease.specs.declared.lease.Grant.{Grant};
ghost use Rattle.nbt_lease.specs.declared.lease.Lease.{Lease};
ghost use Rattle.nbt_lease.specs.declared.lease.Released.{Released};
ghost use Rattle.nbt_lease.specs.Config.{ConfigValue};
ghost use Rattle.nbt_lease.specs.Drift.{IsWithinDrift, KeepsDriftBound, hold, quiet};
ghost use Rattle.nbt_lease.specs.Lease.{Leases, Rows, TableValue, is_live, leases_at, live_count, at_name, IsSound};
ghost use Rattle.nbt_lease.specs.Rules.{Asked, Grants, Releases, IsGranted};

/// How many leases live over all names is determined by the leases of each name: the order between names doesn't matter.
pub fn same_leases_same_count()
    ensures { (moment : ℕ) (a b : Rows) → leases_at moment a ≡ leases_at moment b → live_count moment a ≡ live_count moment b }
{}

/// Rows with the same leases at a time have the same at a later one.
pub fn same_leases_later()
    ensures { (early late : ℕ) (a b : Rows) → early ≤ late → leases_at early a ≡ leases_at early b → leases_at late a ≡ leases_at late b }
{}

/// What lives of a name at a later time is what lives then of its leases now, in their order.
pub fn later_leases_live_now()
    ensures { (early late : ℕ) (rows : Rows) (name : NameValue) → early ≤ late → leases_at late rows name ≡ filter (is_live late) (leases_at early rows name) }
{}

/// A lease that goes last at its name makes one live lease more.
pub fn one_more_lives()
    ensures { (moment : ℕ) (name : NameValue) (lease : Lease) (a b : Rows) → moment < lease.end
        → leases_at moment b ≡ at_name name (leases_at moment a name ++ lease ∷ []) (leases_at moment a) → live_count moment b ≡ live_count moment a + 1 }
{}

/// What `at_name` says of the name, and of each other one.
pub fn one_name_changes()
    ensures here { (name : NameValue) (leases : List Lease) (others : Leases) → at_name name leases others name ≡ leases }
    ensures elsewhere { (name other : NameValue) (leases : List Lease) (others : Leases) → other ≢ name → at_name name leases others other ≡ others other }
    ensures same { (name : NameValue) (leases : Leases) → at_name name (leases name) leases ≡ leases }
{}

/// Leases that are sound at a time are so at a later one, and after each grant and release.
pub fn leases_stay_sound()
    ensures later { (config : ConfigValue) (early late : ℕ) (rows : Rows) → early ≤ late → IsSound config early (leases_at early rows) → IsSound config late (leases_at late rows) }
    ensures granted { (table : TableValue) (now : ℕ) (name : NameValue) (a : Asked) (result : Result Grant GrantFault) (after : Leases) → IsSound table.config now (leases_at now table.rows) → Grants table now name a result after → IsSound table.config now after }
    ensures released { (table : TableValue) (now : ℕ) (name : NameValue) (addr : ℕ) (result : Released) (after : Leases) → IsSound table.config now (leases_at now table.rows) → Releases table now name addr result after → IsSound table.config now after }
{}

/// Of sound leases a grant and a release make one thing: no two cases of a rule meet, and one always stands.
pub fn one_case_stands()
    ensures grant_found { (table : TableValue) (now : ℕ) (name : NameValue) (a : Asked) → (result : Result Grant GrantFault) × (after : Leases) × Grants table now name a result after }
    ensures one_grant { (table : TableValue) (now : ℕ) (name : NameValue) (a : Asked) (r s : Result Grant GrantFault) (x y : Leases) → IsSound table.config now (leases_at now table.rows) → Grants table now name a r x → Grants table now name a s y → (r ≡ s) × (x ≡ y) }
    ensures release_found { (table : TableValue) (now : ℕ) (name : NameValue) (addr : ℕ) → (result : Released) × (after : Leases) × Releases table now name addr result after }
    ensures one_release { (table : TableValue) (now : ℕ) (name : NameValue) (addr : ℕ) (r s : Released) (x y : Leases) → IsSound table.config now (leases_at now table.rows) → Releases table now name addr r x → Releases table now name addr s y → (r ≡ s) × (x ≡ y) }
{}

/// The leases of other addresses are as before, after a grant, a refusal and a release.
pub fn leases_of_others_stay()
    ensures granted { (table : TableValue) (now : ℕ) (name : NameValue) (a : Asked) (result : Result Grant GrantFault) (after : Leases) (lease : Lease) → Grants table now name a result after → lease.addr ≢ a.addr
        → Contains (leases_at now table.rows name) lease ↔ Contains (after name) lease }
    ensures released { (table : TableValue) (now : ℕ) (name : NameValue) (addr : ℕ) (result : Released) (after : Leases) (lease : Lease) → Releases table now name addr result after → lease.addr ≢ addr
        → Contains (leases_at now table.rows name) lease ↔ Contains (after name) lease }
{}

/// What is granted stands: afterwards the requester has one lease, of the requested kind, that expires with the grant: the
/// seconds granted from now, or as before if that is later. Beside a lease of another address, both are of a group.
pub fn granted_lease_stands()
    ensures lease { (table : TableValue) (now : ℕ) (name : NameValue) (a : Asked) (grant : Grant) (after : Leases) → IsSound table.config now (leases_at now table.rows) → Grants table now name a (Ok grant) after
        → (lease : Lease) × IsGranted table now name a grant (after name) lease }
    ensures beside { (table : TableValue) (now : ℕ) (name : NameValue) (a : Asked) (grant : Grant) (after : Leases) (other : Lease) → Grants table now name a (Ok grant) after
        → Contains (leases_at now table.rows name) other → other.addr ≢ a.addr → (other.kind ≡ Group) × (a.kind ≡ Group) }
{}

/// A node's hold ends before the lease that it rests on, although their clocks drift: while the node's clock moves by less
/// than `hold seconds`, the server's moves by less than `1000 * seconds`. Both keep the drift bound to one true clock. Said
/// of what the clocks moved by, and of what they read at two times.
pub fn hold_ends_first()
    ensures moved { (passed node server seconds : ℕ) → IsWithinDrift passed node → IsWithinDrift passed server → node < hold seconds → server < 1000 * seconds }
    ensures between { (true_then true_now node_then node_now server_then server_now seconds : ℕ) → KeepsDriftBound true_then node_then true_now node_now → KeepsDriftBound true_then server_then true_now server_now
        → node_then ≤ node_now → node_now < node_then + hold seconds → server_now < server_then + 1000 * seconds }
{}

/// A name rests for more than two lives of a datagram, although the node's clock drifts: once it has moved by more than
/// `quiet life`, the true clock has moved by more than `2 * life`. Said in the same two ways.
pub fn rest_outlasts_datagrams()
    ensures moved { (passed node life : ℕ) → IsWithinDrift passed node → quiet life < node → 2 * life < passed }
    ensures between { (true_then true_now node_then node_now life : ℕ) → KeepsDriftBound true_then node_then true_now node_now → node_then + quiet life < node_now → true_then + 2 * life < true_now }
{}

/// The drift bound between two times is that of what the clocks moved by.
pub fn drift_bound_of_moves()
    ensures { (true_then read_then passed moved : ℕ) → IsWithinDrift passed moved ↔ KeepsDriftBound true_then read_then (true_then + passed) (read_then + moved) }
{}
