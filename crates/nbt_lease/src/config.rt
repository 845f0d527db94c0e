//! The limits that a server and its nodes share.

ghost use Rattle.std.specs.Prelude.{◌≡◌, ◌*◌, ◌<◌, ◌≤◌, ◌↔◌, IsOk, IfOk, IsErrOf};
ghost use Rattle.nbt_lease.specs.Config.{IsConfig, IsLife, IsLargeRows, IsLongest, IsRows, config_of, granted, milliseconds};
ghost use Rattle.nbt_lease.specs.Drift.{hold, quiet};

use crate::fault::ConfigFault;
use std::marker::Model;

/// The limits that a server and its nodes share (our profile): the greatest life of one datagram, the longest lease,
/// and how many live leases a server keeps.
#[derive(Clone, Copy, Debug, PartialEq, Eq)]
pub struct Config {
    life: u64,
    longest: u32,
    rows: usize,
}

impl Model for Config {
    ghost use Rattle.nbt_lease.specs.Config.{ConfigValue, IsConfig};

    ghost Value = { ConfigValue };

    ghost view = { λ c. record { life = c.life; longest = c.longest; rows = c.rows } };

    ghost invariant = { λ c. IsConfig (record { life = c.life; longest = c.longest; rows = c.rows }) };

    ghost inverse = { λ v. record { life = v.life; longest = v.longest; rows = v.rows } };
}

/// The most milliseconds of `life` (our profile).
pub const LIFE_MOST: u64 = 60_000;

/// The most seconds of `longest` (our profile).
pub const LONGEST_MOST: u32 = 1_000_000;

/// The most live leases of a server (our profile).
pub const ROWS_MOST: usize = 4_096;

/// The most live leases of a large server (our profile).
pub const LARGE_ROWS_MOST: usize = 1_048_576;

impl Config {
    /// The limits `life` in milliseconds, `longest` in seconds and `rows` in leases. Refused in this order: `Life` (1) if
    /// `life` isn't 1 to 60,000, `Longest` (2) if `longest` isn't 1 to 1,000,000, `Rows` (3) if `rows` isn't 1 to 4,096. Our
    /// profile.
    pub fn new(life: u64, longest: u32, rows: usize) -> Result<Config, ConfigFault>
        ensures found { IsOk result ↔ (IsLife life × IsLongest longest × IsRows rows) }
        ensures value { IfOk result (λ config. config ≡ config_of life longest rows) }

        // Which fault it is.
        ensures life { IsErrOf result ConfigFault.Life ↔ (¬ IsLife life) }
        ensures longest { IsErrOf result ConfigFault.Longest ↔ (IsLife life × (¬ IsLongest longest)) }
        ensures rows { IsErrOf result ConfigFault.Rows ↔ (IsLife life × IsLongest longest × (¬ IsRows rows)) }
    {
        Config::up_to(ROWS_MOST, life, longest, rows)
    }

    /// The limits of a server of more leases: as `new`, but `rows` is 1 to 1,048,576. Our profile.
    pub fn large(life: u64, longest: u32, rows: usize) -> Result<Config, ConfigFault>
        ensures found { IsOk result ↔ (IsLife life × IsLongest longest × IsLargeRows rows) }
        ensures value { IfOk result (λ config. config ≡ config_of life longest rows) }

        // Which fault it is.
        ensures life { IsErrOf result ConfigFault.Life ↔ (¬ IsLife life) }
        ensures longest { IsErrOf result ConfigFault.Longest ↔ (IsLife life × (¬ IsLongest longest)) }
        ensures rows { IsErrOf result ConfigFault.Rows ↔ (IsLife life × IsLongest longest × (¬ IsLargeRows rows)) }
    {
        Config::up_to(LARGE_ROWS_MOST, life, longest, rows)
    }

    /// The same, where `rows` is 1 to `most`.
    fn up_to(most: usize, life: u64, longest: u32, rows: usize) -> Result<Config, ConfigFault>
        requires { most ≤ LARGE_ROWS_MOST }
        ensures found { IsOk result ↔ (IsLife life × IsLongest longest × (1 ≤ rows) × (rows ≤ most)) }
        ensures value { IfOk result (λ config. config ≡ config_of life longest rows) }
        ensures life { IsErrOf result ConfigFault.Life ↔ (¬ IsLife life) }
        ensures longest { IsErrOf result ConfigFault.Longest ↔ (IsLife life × (¬ IsLongest longest)) }
        ensures rows { IsErrOf result ConfigFault.Rows ↔ (IsLife life × IsLongest longest × (¬ ((1 ≤ rows) × (rows ≤ most)))) }
    {
        if life == 0 || life > LIFE_MOST {
            return Err(ConfigFault::Life);
        }
        if longest == 0 || longest > LONGEST_MOST {
            return Err(ConfigFault::Longest);
        }
        if rows == 0 || rows > most {
            return Err(ConfigFault::Rows);
        }
        Ok(Config {
            life,
            longest,
            rows,
        })
    }

    /// The greatest life of one datagram, 1 to 60,000 milliseconds.
    pub fn life(self) -> u64
        ensures value { result ≡ self.life }
        ensures config { IsConfig self }
    {
        self.life
    }

    /// The longest lease, 1 to 1,000,000 seconds.
    pub fn longest(self) -> u32
        ensures value { result ≡ self.longest }
        ensures config { IsConfig self }
    {
        self.longest
    }

    /// The most live leases of a server, 1 to 1,048,576.
    pub fn rows(self) -> usize
        ensures value { result ≡ self.rows }
        ensures config { IsConfig self }
    {
        self.rows
    }

    /// The seconds that a lease is granted for where `ttl` seconds are requested: `longest` if `ttl` is 0, else the smaller of
    /// `ttl` and `longest`; 1 to `longest` (our profile; RFC 1002 section 6 reads 0 as infinite). A reply's TTL is read in the
    /// same way.
    pub fn granted(self, ttl: u32) -> u32
        ensures value { result ≡ granted self.longest ttl }
        ensures bounds { (1 ≤ result) × (result ≤ self.longest) }
        ensures config { IsConfig self }
    {
        if ttl == 0 {
            return self.longest;
        }
        ttl.min(self.longest)
    }

    /// How many milliseconds of its own clock a node holds a name for that was granted for `seconds`:
    /// `floor((1000 * seconds - 1) * 999 / 1001) - 1`, and 0 for 0 seconds (our profile). Clocks drift: if the node's and the
    /// server's keep within a thousandth and a millisecond of the true one, the hold ends before the lease. So 60 s are held
    /// for 59,878 ms. It is at least 996 if `seconds` is at least 1.
    pub fn hold(seconds: u32) -> u64
        ensures value { result ≡ hold seconds }
        ensures at_least { 1 ≤ seconds → 996 ≤ result }
        ensures bound { result ≤ milliseconds seconds }
    {
        let less_than_granted = (1000 * u64::from(seconds)).saturating_sub(1);
        (less_than_granted * 999 / 1001).saturating_sub(1)
    }

    /// How many milliseconds of its own clock a node waits after its start, and after it last sent something about a name:
    /// `2 * life + floor(2 * life / 1000) + 2`, 4 to 120,122 (our profile). If the clock keeps within a thousandth and a
    /// millisecond of the true one, no datagram from before, and no reply to one, lives longer.
    pub fn quiet(self) -> u64
        ensures value { result ≡ quiet self.life }
        ensures bounds { (4 ≤ result) × (result ≤ 120122) }
        ensures config { IsConfig self }
    {
        let two_lives = 2 * self.life;
        two_lives + two_lives / 1000 + 2
    }
}
