//! A wanted name, and what its host keeps of it.

ghost use Rattle.std.specs.Prelude.{◌≡◌, ◌≤◌, map, false};
ghost use Rattle.nbt_host.specs.Goals.{fresh, anew, back_off, times_after, may_ask, is_known, is_kept, stage_at, left_at, freed_stage, is_asked, is_asking, is_silent, seen_at, seen, is_brief, told_grant, granted_for, doubted_at, heard, heard_by};

use crate::news::{News, Notice};
use nbt_client::Want;
use nbt_lease::{Config, Moment};
use nbt_node::{Node, RETRY_TIMEOUT, Standing};

/// How far a host is with a name.
#[derive(Clone, Copy, Debug, PartialEq, Eq)]
pub enum Stage {
    /// It is wanted.
    Wanted,
    /// It is to be released, and was not held since.
    Leaving,
    /// It is released, and no reply to that has come.
    Released,
    /// It was released, which the server knows, with this RCODE: 0 confirms it.
    Left(u8),
    /// It was released, and the server denied a repeated request for that: an earlier one may have been confirmed.
    Doubtful,
}

/// The last of some refusals in a row.
#[derive(Clone, Copy, Debug, PartialEq, Eq)]
pub struct Refusal {
    /// Its RCODE (RFC 1002 section 4.2.6).
    pub rcode: u8,
    /// How many they are; 255 stands for more.
    pub times: u8,
    /// When it came.
    pub at: Moment,
}

/// A name that is wanted, and what its host keeps and tells of it.
#[derive(Debug, Drop)]
pub struct Goal {
    /// What is wanted.
    pub want: Want,
    /// How far the host is with it.
    pub stage: Stage,
    /// When it was released, if it was.
    pub left: Moment,
    /// The last refusal since the last grant, if one came.
    pub refusal: Option<Refusal>,
    /// Whether the name was held when the host looked last.
    pub held: bool,
    /// Whether the last hold that was granted is too short to be renewed in time, which was told.
    pub brief: bool,
    /// Whether it was told that the server says that it isn't held, and no grant has come since.
    pub doubted: bool,
    /// Whether its registration was pending when the host looked last, and no reply has come since.
    pub asked: bool,
    /// Whether it was told that no reply has come, and none has come since.
    pub unheard: bool,
    /// Whether the last turn told that.
    pub silent: bool,
    /// What the last turn told of the name first: whether that hold was over by time at the turn's first reading of the clock.
    pub lapsed: bool,
    /// What the last turn told then, if anything came.
    pub news: Option<News>,
}

/// How many milliseconds a name isn't requested after so many refusals in a row: 5 s, with each further one twice as long, 5
/// min at most (our profile).
fn back_off(times: u8) -> u64
    ensures value { result ≡ back_off times }
    ensures bound { result ≤ 300000 }
{
    match times {
        0 | 1 => 5_000,
        2 => 10_000,
        3 => 20_000,
        4 => 40_000,
        5 => 80_000,
        6 => 160_000,
        _ => 300_000,
    }
}

/// How many refusals in a row there are with one more.
fn times_after(refusal: Option<Refusal>) -> u8
    ensures { result ≡ times_after refusal }
{
    match refusal {
        Some(last) => last.times.saturating_add(1),
        None => 1,
    }
}

/// Whether the last refusal was with this RCODE.
fn is_known(rcode: u8, refusal: Option<Refusal>) -> bool
    ensures { result ≡ is_known rcode refusal }
{
    match refusal {
        Some(last) => last.rcode == rcode,
        None => false,
    }
}

/// Whether a hold of so many seconds ends before its refresh may be sent.
fn is_brief(config: Config, seconds: u32) -> bool
    ensures { result ≡ is_brief config seconds }
{
    Config::hold(seconds) <= config.quiet() + 1
}

/// What is told of a grant: of one that is too short that it is, once in a row of them.
fn told_grant(is_brief: bool, was_brief: bool, seconds: u32, news: News) -> Option<News>
    ensures { result ≡ told_grant is_brief was_brief seconds news }
{
    match (is_brief, was_brief) {
        (true, true) => None,
        (true, false) => Some(News::Brief(seconds)),
        (false, _) => Some(news),
    }
}

/// How far the host is with a name that was released at `left`, where the server's reply comes at `now`, with this RCODE. A denial that
/// comes once the request was sent again says nothing: the one before may have been confirmed.
fn freed_stage(now: Moment, left: Moment, rcode: u8) -> Stage
    ensures { result ≡ freed_stage now left rcode }
{
    if rcode == 0 || now.get() < left.get() + u64::from(RETRY_TIMEOUT) {
        Stage::Left(rcode)
    } else {
        Stage::Doubtful
    }
}

impl Stage {
    /// Whether the name was not given back.
    fn is_kept(self) -> bool
        ensures { result ≡ is_kept self }
    {
        match self {
            Stage::Wanted | Stage::Leaving => true,
            Stage::Released | Stage::Left(_) | Stage::Doubtful => false,
        }
    }

    /// The stage at a time at which the name is held, or isn't.
    fn at(self, is_held: bool) -> Stage
        ensures { result ≡ stage_at is_held self }
    {
        match self {
            Stage::Leaving if is_held => Stage::Released,
            _ => self,
        }
    }

    /// When the name was released, if it is now, or was at `left`.
    fn left_at(self, now: Moment, is_held: bool, left: Moment) -> Moment
        ensures { result ≡ left_at now is_held self left }
    {
        match self {
            Stage::Leaving if is_held => now,
            _ => left,
        }
    }
}

impl Goal {
    /// A want of which nothing is known yet.
    pub fn new(want: Want) -> Goal
        ensures { result ≡ fresh want }
    {
        Goal {
            want,
            stage: Stage::Wanted,
            left: Moment::zero(),
            refusal: None,
            held: false,
            brief: false,
            doubted: false,
            asked: false,
            unheard: false,
            silent: false,
            lapsed: false,
            news: None,
        }
    }

    /// Whether the name may be asked for at `now`, as far as its refusals go.
    pub fn may_ask(&self, now: Moment) -> bool
        ensures { result ≡ may_ask now self.now.refusal }
    {
        match self.refusal {
            Some(last) => last.at.get() + back_off(last.times) <= now.get(),
            None => true,
        }
    }

    /// What is wanted stays, and the stage; all else is forgotten.
    fn forget(&mut self)
        ensures { self.new ≡ anew self.old }
    {
        self.refusal = None;
        self.held = false;
        self.brief = false;
        self.doubted = false;
        self.asked = false;
        self.unheard = false;
        self.silent = false;
        self.lapsed = false;
        self.news = None;
    }

    /// A reply came, whatever it says.
    fn is_answered(&mut self)
        ensures { self.new ≡ record self.old { asked = false; unheard = false } }
    {
        self.asked = false;
        self.unheard = false;
    }

    /// Whether no reply came to a registration that had all its sendings, which wasn't told yet.
    fn is_silent(&self, is_asked: bool) -> bool
        ensures { result ≡ is_silent is_asked self.now }
    {
        self.asked && !is_asked && !self.unheard
    }

    /// A look at the name at a time at which it is held, or isn't, and a registration of it is pending, or isn't.
    fn see(&mut self, now: Moment, is_held: bool, is_asked: bool)
        ensures { self.new ≡ seen_at now is_held is_asked self.old }
    {
        self.left = self.stage.left_at(now, is_held, self.left);
        self.silent = self.is_silent(is_asked);
        self.unheard = self.unheard || self.silent;
        self.asked = is_asked;
        self.lapsed = self.held && !is_held && self.stage.is_kept() && !self.brief;
        self.stage = self.stage.at(is_held);
        self.held = is_held;
        self.news = None;
    }

    /// The name was granted for these seconds, and is then held, or isn't.
    fn grant(&mut self, config: Config, is_held: bool, seconds: u32, news: News)
        ensures { self.new ≡ granted_for config is_held seconds news self.old }
    {
        self.is_answered();
        self.refusal = None;
        self.held = is_held;
        self.doubted = false;
        self.news = None;
        if is_held {
            let brief = is_brief(config, seconds);
            self.news = told_grant(brief, self.brief, seconds, news);
            self.brief = brief;
        }
    }

    /// The server said, unasked, that the name isn't held.
    fn doubt(&mut self, is_held: bool)
        ensures { self.new ≡ doubted_at is_held self.old }
    {
        if is_held && !self.doubted {
            self.doubted = true;
            self.news = Some(News::Doubted);
        }
    }

    /// Takes what came for the name at `now`, at which it is then held, or isn't.
    fn hear(&mut self, config: Config, now: Moment, is_held: bool, news: News)
        ensures { self.new ≡ heard config now is_held news self.old }
    {
        match news {
            News::Granted(seconds) => self.grant(config, is_held, seconds, news),
            News::Untimed(seconds) if self.want.ttl == 0 => {
                self.grant(config, is_held, seconds, News::Granted(seconds));
            }
            News::Untimed(seconds) => self.grant(config, is_held, seconds, news),
            News::Brief(seconds) => self.grant(config, is_held, seconds, news),
            News::Renewed(_) => {
                self.is_answered();
                self.doubted = false;
                self.news = is_held.then_some(news);
            }
            News::Refused(rcode) => {
                self.is_answered();
                self.news = (!is_known(rcode, self.refusal)).then_some(news);
                self.refusal = Some(Refusal {
                    rcode,
                    times: times_after(self.refusal),
                    at: now,
                });
                self.brief = false;
            }
            News::Lost => {
                self.is_answered();
                self.held = false;
                self.brief = false;
                self.doubted = false;
                self.news = Some(news);
            }
            News::Doubted => self.doubt(is_held),
            News::Freed(rcode) => {
                self.stage = freed_stage(now, self.left, rcode);
                self.news = Some(news);
            }
        }
    }
}

/// Of every goal what is wanted stays, and its stage; all else is forgotten.
pub fn forget_all(goals: &mut [Goal])
    ensures { goals.new ≡ map anew goals.old }
{
    for goal in goals.iter_mut() {
        goal.forget();
    }
}

/// Whether a registration of the name is pending.
fn is_asked<const N: usize>(node: &Node<N>, now: Moment, goal: &Goal) -> bool
    ensures { result ≡ is_asked node.now now goal.now }
{
    is_asking(node.standing(now, &goal.want.name.lend()))
}

fn is_asking(standing: Option<Standing>) -> bool
    ensures { result ≡ is_asking standing }
{
    match standing {
        Some(Standing::Asking) => true,
        _ => false,
    }
}

/// A look at one name.
fn see<const N: usize>(node: &Node<N>, now: Moment, goal: &mut Goal)
    ensures { goal.new ≡ seen node.now now goal.old }
{
    let is_held = node.holds(now, &goal.want.name.lend()).is_some();
    let is_asked = is_asked(node, now, goal);
    goal.see(now, is_held, is_asked);
}

/// Looks at every name at `now`.
pub fn see_all<const N: usize>(node: &Node<N>, now: Moment, goals: &mut [Goal])
    ensures { goals.new ≡ map (seen node.now now) goals.old }
{
    for goal in goals.iter_mut() {
        see(node, now, goal);
    }
}

/// Takes what came at `now`, if it is for this name.
fn hear<const N: usize>(
    node: &Node<N>,
    config: Config,
    now: Moment,
    notice: &Option<Notice>,
    goal: &mut Goal,
)
    ensures { goal.new ≡ heard_by config node.now now notice.now goal.old }
{
    let Some(notice) = notice else {
        return;
    };
    if notice.name == goal.want.name {
        let is_held = node.holds(now, &goal.want.name.lend()).is_some();
        goal.hear(config, now, is_held, notice.news);
    }
}

/// Takes what came at `now` for whichever name it is for.
pub fn hear_all<const N: usize>(
    node: &Node<N>,
    config: Config,
    now: Moment,
    notice: &Option<Notice>,
    goals: &mut [Goal],
)
    ensures { goals.new ≡ map (heard_by config node.now now notice.now) goals.old }
{
    for goal in goals.iter_mut() {
        hear(node, config, now, notice, goal);
    }
}
