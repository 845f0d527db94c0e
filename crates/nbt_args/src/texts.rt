//! Reads a command line: the texts of its arguments, by name.

ghost use Rattle.std.specs.Prelude.{◌≡◌, true, false, IfOk, codes, map, drop};
ghost use Rattle.std.specs.Option.{option_map};
ghost use Rattle.nbt_args.specs.Inner.Matches.{IsFlag, Tells, TellsTurns, argument_of, arguments_of, value_of};

use crate::lists::{ImportTexts, LeasesTexts, import_texts, leases_texts};
use crate::program::program;
use crate::refusal::Refusal;
use crate::scan::{ScanTexts, scan_texts};
use clap::error::ErrorKind;
use clap::{ArgMatches, Command};
use std::alloc::{AllocError, Global};
use std::convert::AsStr;

/// The texts of the arguments of `answer`.
#[derive(Drop)]
pub struct AnswerTexts<'a> {
    /// The sender.
    pub from: &'a str,
    /// The packet, in hexadecimal.
    pub hex: &'a str,
    /// The time, in milliseconds.
    pub at: &'a str,
}

/// The texts of the arguments of `show`.
#[derive(Drop)]
pub struct ShowTexts<'a> {
    /// The service: `name`, `dgram` or `session`.
    pub kind: &'a str,
    /// The octets, in hexadecimal.
    pub hex: &'a str,
    /// Whether the octets are explained too.
    pub explain: bool,
}

/// The texts of the arguments of `serve`.
#[derive(Drop)]
pub struct ServeTexts<'a> {
    /// The own address and port.
    pub bind: &'a str,
    /// The greatest life of a datagram, in milliseconds.
    pub life: &'a str,
    /// The longest lease, in seconds.
    pub longest: &'a str,
    /// The number of turns; `None` for `--forever`.
    pub turns: Option<&'a str>,
}

/// The texts of the arguments of `node`.
#[derive(Drop)]
pub struct NodeTexts<'a> {
    /// The own address and port.
    pub bind: &'a str,
    /// The name server's address and port.
    pub server: &'a str,
    /// The greatest life of a datagram, in milliseconds.
    pub life: &'a str,
    /// The longest lease, in seconds.
    pub longest: &'a str,
    /// The name to register.
    pub name: &'a str,
    /// Who may hold it: `unique`, or [`GROUP`](crate::GROUP).
    pub kind: &'a str,
    /// The requested TTL, in seconds.
    pub ttl: &'a str,
    /// The number of turns; `None` for `--forever`.
    pub turns: Option<&'a str>,
}

/// The texts of the arguments of `lookup`, or of a status request to one host.
#[derive(Clone, Copy)]
pub struct LookupTexts<'a> {
    /// The address of the name server, or of the host.
    pub to: &'a str,
    /// The name that is looked up, or to which the status request is sent.
    pub name: &'a str,
    /// The name's scope; empty for none.
    pub scope: &'a str,
    /// Whether lower-case letters are kept.
    pub exact: bool,
    /// The number of requests: `1`, `2` or `3`.
    pub tries: &'a str,
    /// How long it waits after the last request.
    pub wait: &'a str,
    /// The own address.
    pub bind: &'a str,
}

/// The texts of the arguments of `status`.
#[derive(Drop)]
pub struct StatusTexts<'a> {
    /// Those of the request to the first host.
    pub first: LookupTexts<'a>,
    /// The addresses of the other hosts, which are sent the same.
    pub others: Vec<&'a str>,
}

/// The texts of the arguments of `nbns`.
#[derive(Drop)]
pub struct NbnsTexts<'a> {
    /// The own addresses; none for every address of the machine.
    pub binds: Vec<&'a str>,
    /// The greatest life of a datagram.
    pub life: &'a str,
    /// The longest lease.
    pub longest: &'a str,
    /// For how long it runs; `None` for no limit.
    pub time: Option<&'a str>,
    /// Whether it logs.
    pub log: bool,
    /// Whether the log has broadcasts too.
    pub broadcasts: bool,
    /// How many lines of a kind the log has in a second at most; `None` for the default.
    pub log_rate: Option<&'a str>,
    /// The path of the list of leases, if any.
    pub leases: Option<&'a str>,
    /// The path of the hosts, if any.
    pub hosts: Option<&'a str>,
    /// The path of the statistics, if any.
    pub stats: Option<&'a str>,
    /// Whether Samba's registrations are not accepted.
    pub strict: bool,
    /// How many live leases the server keeps; `None` for the default.
    pub rows: Option<&'a str>,
    /// How many live leases a client may have; `None` for the default.
    pub rows_per_client: Option<&'a str>,
    /// The networks whose machines may register; none for every machine.
    pub allow: Vec<&'a str>,
    /// The path of the file of further such networks, if any.
    pub allow_file: Option<&'a str>,
    /// The path of the file of fixed names, if any.
    pub fixed: Option<&'a str>,
    /// The folder that keeps the leases, if any.
    pub state: Option<&'a str>,
    /// Whether it is silent after another boot.
    pub silent_after_boot: bool,
    /// How many changes a client may make in a second; `None` for the default.
    pub changes_per_client: Option<&'a str>,
    /// Whether it only says what a server would do.
    pub check: bool,
}

/// The texts of the arguments of `host`, or of `release`.
#[derive(Drop)]
pub struct HostTexts<'a> {
    /// The unique names.
    pub names: Vec<&'a str>,
    /// The names of groups.
    pub groups: Vec<&'a str>,
    /// The scope of all names; empty for none.
    pub scope: &'a str,
    /// Whether lower-case letters are kept.
    pub exact: bool,
    /// The name server's address, the first of several.
    pub server: &'a str,
    /// The others.
    pub others: Vec<&'a str>,
    /// Whether all are addresses of one table.
    pub one_table: bool,
    /// The own address.
    pub bind: &'a str,
    /// The greatest life of a datagram.
    pub life: &'a str,
    /// The longest lease.
    pub longest: &'a str,
    /// For how long it runs; `None` for no limit.
    pub time: Option<&'a str>,
    /// Whether it logs renewals too.
    pub log: bool,
}

/// A command for people who run a network, with the texts of its arguments.
#[derive(Drop)]
pub enum AdminLine<'a> {
    Lookup(LookupTexts<'a>),
    Status(StatusTexts<'a>),
    Nbns(NbnsTexts<'a>),
    Host(HostTexts<'a>),
    Release(HostTexts<'a>),
    Scan(ScanTexts<'a>),
}

/// A command, with the texts of its arguments.
#[derive(Drop)]
pub enum CommandLine<'a> {
    /// A command for people who run a network.
    Admin(AdminLine<'a>),
    Import(ImportTexts<'a>),
    Leases(LeasesTexts<'a>),
    Answer(AnswerTexts<'a>),
    Show(ShowTexts<'a>),
    Check,
    Sim,
    /// `sim --draw`.
    Draw,
    Serve(ServeTexts<'a>),
    Node(NodeTexts<'a>),
    /// `loop`, with the first of its ports.
    Loop(&'a str),
}

/// Reads the program's arguments, the first of which is its own name. Wrong usage is refused, and so is a request for help, each with the text
/// to be printed.
pub fn read<'a, S: AsStr>(alloc: Global, arguments: &'a [S]) -> Result<CommandLine<'a>, Refusal> {
    let mut program = program(alloc)?;
    match line_by(alloc, &mut program, arguments)? {
        Some(line) => Ok(line),
        None => Err(no_command(&mut program)),
    }
}

/// Returns the command that the program finds in its arguments; `None` where there is none.
fn line_by<'a, S: AsStr>(
    alloc: Global,
    program: &mut Command<'a>,
    arguments: &'a [S],
) -> Result<Option<CommandLine<'a>>, Refusal> {
    let matches = program.try_get_matches_from_mut(arguments)?;
    match matches.subcommand() {
        Some((name, inner)) => Ok(line_of(alloc, name, inner)?),
        None => Ok(None),
    }
}

/// Refuses arguments without a command, or says that memory is out.
fn no_command<'a>(program: &mut Command<'a>) -> Refusal {
    match program.error(ErrorKind::MissingSubcommand, "a command is needed") {
        Ok(error) => Refusal::from(error),
        Err(_) => Refusal::Memory,
    }
}

/// Returns the command of this name; `None` where there is no such command.
fn line_of<'a>(
    alloc: Global,
    name: &str,
    matches: &ArgMatches<'a>,
) -> Result<Option<CommandLine<'a>>, AllocError> {
    let line = match name {
        "lookup" => CommandLine::Admin(AdminLine::Lookup(lookup_texts(matches, "server"))),
        "status" => CommandLine::Admin(AdminLine::Status(status_texts(alloc, matches)?)),
        "nbns" => CommandLine::Admin(AdminLine::Nbns(nbns_texts(alloc, matches)?)),
        "host" => CommandLine::Admin(AdminLine::Host(host_texts(alloc, matches)?)),
        "release" => CommandLine::Admin(AdminLine::Release(host_texts(alloc, matches)?)),
        "scan" => CommandLine::Admin(AdminLine::Scan(scan_texts(alloc, matches)?)),
        "import" => CommandLine::Import(import_texts(alloc, matches)?),
        "leases" => CommandLine::Leases(leases_texts(matches)),
        "answer" => CommandLine::Answer(answer_texts(matches)),
        "show" => CommandLine::Show(show_texts(matches)),
        "check" => CommandLine::Check,
        "sim" => sim_line(matches),
        "serve" => CommandLine::Serve(serve_texts(matches)),
        "node" => CommandLine::Node(node_texts(matches)),
        "loop" => CommandLine::Loop(argument(matches, "port")),
        _ => return Ok(None),
    };
    Ok(Some(line))
}

/// Returns the texts of a lookup or of a status request, whose endpoint is the argument `to`.
fn lookup_texts<'a>(matches: &ArgMatches<'a>, to: &str) -> LookupTexts<'a>
    ensures to { result.to.now ≡ argument_of matches.now to.now }
    ensures name { result.name.now ≡ argument_of matches.now (codes "name") }
    ensures scope { result.scope.now ≡ argument_of matches.now (codes "scope") }
    ensures exact { Tells matches.now (codes "exact") result.exact }
    ensures tries { result.tries.now ≡ argument_of matches.now (codes "tries") }
    ensures wait { result.wait.now ≡ argument_of matches.now (codes "wait") }
    ensures bind { result.bind.now ≡ argument_of matches.now (codes "bind") }
{
    LookupTexts {
        to: argument(matches, to),
        name: argument(matches, "name"),
        scope: argument(matches, "scope"),
        exact: matches.get_flag("exact"),
        tries: argument(matches, "tries"),
        wait: argument(matches, "wait"),
        bind: argument(matches, "bind"),
    }
}

fn status_texts<'a>(alloc: Global, matches: &ArgMatches<'a>) -> Result<StatusTexts<'a>, AllocError>
    ensures to { IfOk result (λ texts. texts.first.to.now ≡ argument_of matches.now (codes "host")) }
    ensures name { IfOk result (λ texts. texts.first.name.now ≡ argument_of matches.now (codes "name")) }
    ensures scope { IfOk result (λ texts. texts.first.scope.now ≡ argument_of matches.now (codes "scope")) }
    ensures exact { IfOk result (λ texts. Tells matches.now (codes "exact") texts.first.exact) }
    ensures tries { IfOk result (λ texts. texts.first.tries.now ≡ argument_of matches.now (codes "tries")) }
    ensures wait { IfOk result (λ texts. texts.first.wait.now ≡ argument_of matches.now (codes "wait")) }
    ensures bind { IfOk result (λ texts. texts.first.bind.now ≡ argument_of matches.now (codes "bind")) }
    ensures others { IfOk result (λ texts. map (λ text. text.now) texts.others.items ≡ arguments_of matches.now (codes "also")) }
{
    let others = arguments(alloc, matches, "also")?;
    Ok(StatusTexts {
        first: lookup_texts(matches, "host"),
        others,
    })
}

fn nbns_texts<'a>(alloc: Global, matches: &ArgMatches<'a>) -> Result<NbnsTexts<'a>, AllocError>
    ensures binds { IfOk result (λ texts. map (λ text. text.now) texts.binds.items ≡ arguments_of matches.now (codes "bind")) }
    ensures life { IfOk result (λ texts. texts.life.now ≡ argument_of matches.now (codes "life")) }
    ensures longest { IfOk result (λ texts. texts.longest.now ≡ argument_of matches.now (codes "longest")) }
    ensures time { IfOk result (λ texts. option_map (λ text. text.now) texts.time ≡ value_of matches.now (codes "for")) }
    ensures logs { IfOk result (λ texts. Tells matches.now (codes "log") texts.log) }
    ensures broadcasts { IfOk result (λ texts. Tells matches.now (codes "log-broadcasts") texts.broadcasts) }
    ensures log_rate { IfOk result (λ texts. option_map (λ text. text.now) texts.log_rate ≡ value_of matches.now (codes "log-rate")) }
    ensures leases { IfOk result (λ texts. option_map (λ text. text.now) texts.leases ≡ value_of matches.now (codes "leases")) }
    ensures hosts { IfOk result (λ texts. option_map (λ text. text.now) texts.hosts ≡ value_of matches.now (codes "hosts")) }
    ensures stats { IfOk result (λ texts. option_map (λ text. text.now) texts.stats ≡ value_of matches.now (codes "stats")) }
    ensures strict { IfOk result (λ texts. Tells matches.now (codes "strict") texts.strict) }
    ensures rows { IfOk result (λ texts. option_map (λ text. text.now) texts.rows ≡ value_of matches.now (codes "rows")) }
    ensures client_rows { IfOk result (λ texts. option_map (λ text. text.now) texts.rows_per_client ≡ value_of matches.now (codes "rows-per-client")) }
    ensures allow { IfOk result (λ texts. map (λ text. text.now) texts.allow.items ≡ arguments_of matches.now (codes "allow")) }
    ensures allow_file { IfOk result (λ texts. option_map (λ text. text.now) texts.allow_file ≡ value_of matches.now (codes "allow-file")) }
    ensures fixed { IfOk result (λ texts. option_map (λ text. text.now) texts.fixed ≡ value_of matches.now (codes "fixed")) }
    ensures state { IfOk result (λ texts. option_map (λ text. text.now) texts.state ≡ value_of matches.now (codes "state")) }
    ensures boots { IfOk result (λ texts. Tells matches.now (codes "silent-after-boot") texts.silent_after_boot) }
    ensures client_changes { IfOk result (λ texts. option_map (λ text. text.now) texts.changes_per_client ≡ value_of matches.now (codes "changes-per-client")) }
    ensures check { IfOk result (λ texts. Tells matches.now (codes "check") texts.check) }
{
    let binds = arguments(alloc, matches, "bind")?;
    let allow = arguments(alloc, matches, "allow")?;
    Ok(NbnsTexts {
        binds,
        life: argument(matches, "life"),
        longest: argument(matches, "longest"),
        time: matches.get_str("for"),
        log: matches.get_flag("log"),
        broadcasts: matches.get_flag("log-broadcasts"),
        log_rate: matches.get_str("log-rate"),
        leases: matches.get_str("leases"),
        hosts: matches.get_str("hosts"),
        stats: matches.get_str("stats"),
        strict: matches.get_flag("strict"),
        rows: matches.get_str("rows"),
        rows_per_client: matches.get_str("rows-per-client"),
        allow,
        allow_file: matches.get_str("allow-file"),
        fixed: matches.get_str("fixed"),
        state: matches.get_str("state"),
        silent_after_boot: matches.get_flag("silent-after-boot"),
        changes_per_client: matches.get_str("changes-per-client"),
        check: matches.get_flag("check"),
    })
}

fn host_texts<'a>(alloc: Global, matches: &ArgMatches<'a>) -> Result<HostTexts<'a>, AllocError>
    ensures names { IfOk result (λ texts. map (λ text. text.now) texts.names.items ≡ arguments_of matches.now (codes "name")) }
    ensures groups { IfOk result (λ texts. map (λ text. text.now) texts.groups.items ≡ arguments_of matches.now (codes "group")) }
    ensures scope { IfOk result (λ texts. texts.scope.now ≡ argument_of matches.now (codes "scope")) }
    ensures exact { IfOk result (λ texts. Tells matches.now (codes "exact") texts.exact) }
    ensures others { IfOk result (λ texts. map (λ text. text.now) texts.others.items ≡ drop 1 (arguments_of matches.now (codes "server"))) }
    ensures one_table { IfOk result (λ texts. Tells matches.now (codes "one-table") texts.one_table) }
    ensures server { IfOk result (λ texts. texts.server.now ≡ argument_of matches.now (codes "server")) }
    ensures bind { IfOk result (λ texts. texts.bind.now ≡ argument_of matches.now (codes "bind")) }
    ensures life { IfOk result (λ texts. texts.life.now ≡ argument_of matches.now (codes "life")) }
    ensures longest { IfOk result (λ texts. texts.longest.now ≡ argument_of matches.now (codes "longest")) }
    ensures time { IfOk result (λ texts. option_map (λ text. text.now) texts.time ≡ value_of matches.now (codes "for")) }
    ensures logs { IfOk result (λ texts. Tells matches.now (codes "log") texts.log) }
{
    let names = arguments(alloc, matches, "name")?;
    let groups = arguments(alloc, matches, "group")?;
    let others = further(alloc, matches, "server")?;
    Ok(HostTexts {
        names,
        groups,
        scope: argument(matches, "scope"),
        exact: matches.get_flag("exact"),
        server: argument(matches, "server"),
        others,
        one_table: matches.get_flag("one-table"),
        bind: argument(matches, "bind"),
        life: argument(matches, "life"),
        longest: argument(matches, "longest"),
        time: matches.get_str("for"),
        log: matches.get_flag("log"),
    })
}

/// Returns the texts of an argument that may be repeated, in order.
pub(crate) fn arguments<'a>(
    alloc: Global,
    matches: &ArgMatches<'a>,
    name: &str,
) -> Result<Vec<&'a str>, AllocError>
    ensures { IfOk result (λ texts. map (λ text. text.now) texts.items ≡ arguments_of matches.now name.now) }
{
    let mut texts = Vec::new(alloc);
    if let Some(found) = matches.get_strs(name) {
        texts.extend_from_slice(found)?;
    }
    Ok(texts)
}

/// Returns the texts of an argument that may be repeated after its first, in order.
fn further<'a>(
    alloc: Global,
    matches: &ArgMatches<'a>,
    name: &str,
) -> Result<Vec<&'a str>, AllocError>
    ensures { IfOk result (λ texts. map (λ text. text.now) texts.items ≡ drop 1 (arguments_of matches.now name.now)) }
{
    let mut texts = arguments(alloc, matches, name)?;
    if !texts.is_empty() {
        texts.remove(0);
    }
    Ok(texts)
}

fn answer_texts<'a>(matches: &ArgMatches<'a>) -> AnswerTexts<'a>
    ensures from { result.from.now ≡ argument_of matches.now (codes "from") }
    ensures hex { result.hex.now ≡ argument_of matches.now (codes "hex") }
    ensures at { result.at.now ≡ argument_of matches.now (codes "at") }
{
    AnswerTexts {
        from: argument(matches, "from"),
        hex: argument(matches, "hex"),
        at: argument(matches, "at"),
    }
}

fn show_texts<'a>(matches: &ArgMatches<'a>) -> ShowTexts<'a>
    ensures kind { result.kind.now ≡ argument_of matches.now (codes "kind") }
    ensures hex { result.hex.now ≡ argument_of matches.now (codes "hex") }
    ensures explained { Tells matches.now (codes "explain") result.explain }
{
    ShowTexts {
        kind: argument(matches, "kind"),
        hex: argument(matches, "hex"),
        explain: matches.get_flag("explain"),
    }
}

fn sim_line<'a>(matches: &ArgMatches<'a>) -> CommandLine<'a>
    ensures drawn { IsFlag matches.now (codes "draw") true → result ≡ CommandLine.Draw }
    ensures printed { IsFlag matches.now (codes "draw") false → result ≡ CommandLine.Sim }
{
    if matches.get_flag("draw") {
        CommandLine::Draw
    } else {
        CommandLine::Sim
    }
}

fn serve_texts<'a>(matches: &ArgMatches<'a>) -> ServeTexts<'a>
    ensures bind { result.bind.now ≡ argument_of matches.now (codes "bind") }
    ensures life { result.life.now ≡ argument_of matches.now (codes "life") }
    ensures longest { result.longest.now ≡ argument_of matches.now (codes "longest") }
    ensures turns { TellsTurns matches.now (option_map (λ text. text.now) result.turns) }
{
    ServeTexts {
        bind: argument(matches, "bind"),
        life: argument(matches, "life"),
        longest: argument(matches, "longest"),
        turns: turns(matches),
    }
}

fn node_texts<'a>(matches: &ArgMatches<'a>) -> NodeTexts<'a>
    ensures bind { result.bind.now ≡ argument_of matches.now (codes "bind") }
    ensures server { result.server.now ≡ argument_of matches.now (codes "server") }
    ensures life { result.life.now ≡ argument_of matches.now (codes "life") }
    ensures longest { result.longest.now ≡ argument_of matches.now (codes "longest") }
    ensures name { result.name.now ≡ argument_of matches.now (codes "name") }
    ensures kind { result.kind.now ≡ argument_of matches.now (codes "kind") }
    ensures ttl { result.ttl.now ≡ argument_of matches.now (codes "ttl") }
    ensures turns { TellsTurns matches.now (option_map (λ text. text.now) result.turns) }
{
    NodeTexts {
        bind: argument(matches, "bind"),
        server: argument(matches, "server"),
        life: argument(matches, "life"),
        longest: argument(matches, "longest"),
        name: argument(matches, "name"),
        kind: argument(matches, "kind"),
        ttl: argument(matches, "ttl"),
        turns: turns(matches),
    }
}

/// Returns the number of turns; `None` for `--forever`.
fn turns<'a>(matches: &ArgMatches<'a>) -> Option<&'a str>
    ensures { TellsTurns matches.now (option_map (λ text. text.now) result) }
{
    if matches.get_flag("forever") {
        return None;
    }
    Some(argument(matches, "turns"))
}

/// Returns the text of an argument. Each is required or has a default, except a scope, which is empty if it isn't given.
pub(crate) fn argument<'a>(matches: &ArgMatches<'a>, name: &str) -> &'a str
    ensures { result.now ≡ argument_of matches.now name.now }
{
    match matches.get_str(name) {
        Some(text) => text,
        None => "",
    }
}
