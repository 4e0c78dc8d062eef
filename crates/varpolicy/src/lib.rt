// The calls of the engine for C. Each answers what the rules' `step` answers, with the status as its number, and leaves in what
// it is lent for writing what `step` leaves there, for every input. A slice is a pointer and a length. The switches are a byte
// each, and every byte has a meaning: `switches_of`, `gives_leave`.
// A function whose parameters or answer an edition changed has the edition behind its name, and the header calls it without: varpolicy_lock
// is varpolicy_lock_e10. E10 gave the switches a fourth byte; under the old names an object file of then would link, and pass three.
#![tactic(auto)]

ghost use Rattle.std.specs.Prelude.{◌≡◌, cond, eqb, length};
ghost use Rattle.slices.specs.Bytes.{Bytes};
ghost use Rattle.names.specs.Name.{variable};
ghost use Rattle.status.specs.declared.Status.TheVariants.{Success};
ghost use Rattle.status.specs.Status.{status_number, is_success};
ghost use Rattle.switches.specs.declared.Switches.{Switches};
ghost use Rattle.switches.specs.declared.SwitchAnswer.{SwitchAnswer};
ghost use Rattle.switches.specs.declared.SwitchBytes.{SwitchBytes};
ghost use Rattle.switches.specs.SwitchBytes.{gives_leave, switches_of, bytes_of, locked_bytes, disabled_bytes, exited_bytes};
ghost use Rattle.rules.specs.Engine.{state_of, step};
ghost use Rattle.rules.specs.Engine.Call.{power_on, restart, register, dump, lock, disable, exit, query, set, settled};
ghost use Rattle.rules.specs.Set.{request_of};
ghost use Rattle.rules.specs.Phases.{phase_step};
ghost use Rattle.rules.specs.Phases.PhaseCall.{phase_policy, write_once_policy, lock_variable, end_of_dxe, ready_to_boot, exit_flag};
ghost use Rattle.engine.specs.Answers.{reading_of};
ghost use Rattle.reader.specs.Reader.{fresh, feed_status, after_feed, verdict_in, listing_in};
ghost use Rattle.varpolicy.specs.Exports.{numbered, status_alone, started_answer, standing, dumped_answer, queried_answer, read_of, NumberedRead, reported_of, written_answer, is_settled_answer, no_pair, quarrelled, reader_verdict_of, reader_entry_of};

use engine::{DumpAnswer, QueryAnswer, Reading, SetAnswer, SettledAnswer};
use quarrels::NoDump;
use reader::Listing;
use rules::Report;
use status::Status;
use switches::{
    SwitchAnswer, SwitchBytes, Switches, bytes_answer, disabled_bytes, exited_bytes, gives_leave,
    locked_bytes,
};

// The structs that C is handed, up to `ReaderEntry`, are flat, with the status in front and zeros beside a refusal: the C interface.

// What a power-on or restart answers. Each byte of the switches is 0 or 1.
#[repr(C)]
#[derive(Clone, Copy)]
pub struct Started {
    pub status: u32,
    pub switches: SwitchBytes,
}

impl From<SwitchAnswer> for Started {
    ghost from_gives = { λ a r. r ≡ record { status = status_number a.status; switches = bytes_of a.switches } };

    fn from(answer: SwitchAnswer) -> Started {
        Started {
            status: u32::from(answer.status),
            switches: SwitchBytes::from(answer.switches),
        }
    }
}

// What a dump answers: beside 0 the length written, beside 5 the length needed.
#[repr(C)]
#[derive(Clone, Copy)]
pub struct Dumped {
    pub status: u32,
    pub length: usize,
}

impl From<DumpAnswer> for Dumped {
    ghost from_gives = { λ a r. r ≡ record { status = status_number a.status; length = a.length } };

    fn from(answer: DumpAnswer) -> Dumped {
        Dumped {
            status: u32::from(answer.status),
            length: answer.length,
        }
    }
}

// What a query answers.
#[repr(C)]
#[derive(Clone, Copy)]
pub struct Queried {
    pub status: u32,
    pub enabled: bool,
}

impl From<QueryAnswer> for Queried {
    ghost from_gives = { λ a r. r ≡ record { status = status_number a.status; enabled = a.enabled } };

    fn from(answer: QueryAnswer) -> Queried {
        Queried {
            status: u32::from(answer.status),
            enabled: answer.enabled,
        }
    }
}

// What a read answers: the attributes, and where the payload stands in the store that non_volatile names.
#[repr(C)]
#[derive(Clone, Copy)]
pub struct Read {
    pub status: u32,
    pub attributes: u32,
    pub non_volatile: bool,
    pub offset: usize,
    pub length: usize,
}

// No reading ends before it begins, but a conversion takes any.
impl From<Reading> for Read {
    ghost from_gives = { λ a r. r ≡ read_of a };

    fn from(reading: Reading) -> Read {
        Read {
            status: u32::from(reading.status),
            attributes: reading.attributes,
            non_volatile: reading.nonvolatile,
            offset: reading.from,
            length: reading.to.saturating_sub(reading.from),
        }
    }
}

// What step 4 said against a set (RULES.md, 10.10), in numbers: the ground is 0 for none, 1 for size, 2 for attributes, 3 for a lock.
#[repr(C)]
#[derive(Clone, Copy)]
pub struct Reported {
    pub ground: u32,
    pub place: u32,
    pub rank: u32,
    pub missing: u32,
    pub prohibited: u32,
    pub lowest_bit: u32,
}

// What a set answers.
#[repr(C)]
#[derive(Clone, Copy)]
pub struct Written {
    pub status: u32,
    pub report: Reported,
}

impl From<SetAnswer> for Written {
    ghost from_gives = { λ a r. r ≡ record { status = status_number a.status; report = reported_of a.report } };

    fn from(answer: SetAnswer) -> Written {
        Written {
            status: u32::from(answer.status),
            report: numbered_report(answer.report),
        }
    }
}

// What settled answers (RULES.md, 10.14).
#[repr(C)]
#[derive(Clone, Copy)]
pub struct Settled {
    pub status: u32,
    pub settled: bool,
}

impl From<SettledAnswer> for Settled {
    ghost from_gives = { λ a r. r ≡ record { status = status_number a.status; settled = a.settled } };

    fn from(answer: SettledAnswer) -> Settled {
        Settled {
            status: u32::from(answer.status),
            settled: answer.settled,
        }
    }
}

// What the check of a dump answers (RULES.md, 10.11): whether two entries quarrel, their places counted from 0, and the bytes of the name.
#[repr(C)]
#[derive(Clone, Copy)]
pub struct Quarrelled {
    pub status: u32,
    pub found: bool,
    pub earlier: u32,
    pub later: u32,
    pub name_length: usize,
}

// What a reader says of the bytes that it was fed (RULES.md, 10.12): whether they are good entries and nothing else, whether the reading has ended, so that no further
// piece changes anything, and of the good entries, up to the first that is not, how many they are and how many bytes they take.
#[repr(C)]
#[derive(Clone, Copy)]
pub struct ReaderVerdict {
    pub status: u32,
    pub whole: bool,
    pub ended: bool,
    pub entries: u32,
    pub bytes: u32,
}

impl From<reader::Verdict> for ReaderVerdict {
    ghost from_gives = { λ v r. r ≡ reader_verdict_of v };

    fn from(verdict: reader::Verdict) -> ReaderVerdict {
        ReaderVerdict {
            status: u32::from(Status::Success),
            whole: verdict.whole,
            ended: verdict.ended,
            entries: verdict.entries,
            bytes: verdict.bytes,
        }
    }
}

// What it tells of a good entry: its Size, its lock type and its rank.
#[repr(C)]
#[derive(Clone, Copy)]
pub struct ReaderEntry {
    pub status: u32,
    pub size: u32,
    pub lock: u32,
    pub rank: u32,
}

// Power-on: wipes the volatile store and the policy record, and hands back the engine's switches. Disabling is allowed by 1, and
// by no other byte (RULES.md, 8.2).
#[unsafe(no_mangle)]
pub extern "C" fn varpolicy_power_on_e10(
    nv: &[u8],
    vol: &mut [u8],
    policy: &mut [u8],
    disabling_allowed: u8,
) -> Started
    ensures { (w : Switches) → numbered (step (state_of nv.now vol.old policy.old w) (power_on (gives_leave disabling_allowed)))
        ≡ (started_answer result, state_of nv.now vol.new policy.new (standing result w)) }
{
    Started::from(engine::power_on(nv, vol, policy, gives_leave(disabling_allowed)))
}

// Restart: as power-on, over stores that it leaves as they are.
#[unsafe(no_mangle)]
pub extern "C" fn varpolicy_restart_e10(
    nv: &[u8],
    vol: &[u8],
    policy: &mut [u8],
    disabling_allowed: u8,
) -> Started
    ensures { (w : Switches) → numbered (step (state_of nv.now vol.now policy.old w) (restart (gives_leave disabling_allowed)))
        ≡ (started_answer result, state_of nv.now vol.now policy.new (standing result w)) }
{
    Started::from(engine::restart(nv, vol, policy, gives_leave(disabling_allowed)))
}

// Register: the packed entry stands behind the others.
#[unsafe(no_mangle)]
pub extern "C" fn varpolicy_register_e10(
    policy: &mut [u8],
    switches: SwitchBytes,
    entry: &[u8],
) -> u32
    ensures { (nv vol : Bytes) → numbered (step (state_of nv vol policy.old (switches_of switches)) (register entry.now))
        ≡ (status_alone result, state_of nv vol policy.new (switches_of switches)) }
{
    u32::from(engine::register(policy, Switches::from(switches), entry))
}

// Dump: the entries, in the order registered, at the start of the buffer.
#[unsafe(no_mangle)]
pub extern "C" fn varpolicy_dump_e10(
    policy: &[u8],
    switches: SwitchBytes,
    buffer: &mut [u8],
) -> Dumped
    ensures { (nv vol : Bytes) → numbered (step (state_of nv vol policy.now (switches_of switches)) (dump buffer.old))
        ≡ (dumped_answer result buffer.new, state_of nv vol policy.now (switches_of switches)) }
{
    Dumped::from(engine::dump(policy, Switches::from(switches), buffer))
}

// A call on lent switches: what `call` answers on the switches that the bytes say, and the bytes that `new` makes of them written where it is granted.
// Refused, nothing is stored.
fn on_switches<C: FnOnce(Switches) -> SwitchAnswer, N: FnOnce(SwitchBytes) -> SwitchBytes>(
    switches: &mut SwitchBytes,
    call: C,
    new: N,
) -> u32
    requires callable { C.IsAlwaysCallable call }
    requires writable { N.IsAlwaysCallable new }
    ensures { (a : SwitchAnswer) × (b : SwitchBytes) × C.post call (switches_of switches.old) a × N.post new switches.old b
        × (result ≡ status_number a.status) × (switches.new ≡ cond (is_success a.status) b switches.old) }
{
    let answer = call(Switches::from(*switches));
    let told = bytes_answer(answer.status, new(*switches));
    if let Some(written) = told.written {
        *switches = written;
    }
    told.status
}

// Lock, on lent switches. Beside 0 the byte `locked` is 1 and the other three are as they were; beside any other status all four
// are. The contract cannot tell a store of the old bytes from none; the machine code makes none: refused, the switches may lie on
// a page that is read-only (rust/varpolicy/tests/switches.rs).
#[unsafe(no_mangle)]
pub extern "C" fn varpolicy_lock_e10(switches: &mut SwitchBytes) -> u32
    ensures { ((nv vol policy : Bytes) → numbered (step (state_of nv vol policy (switches_of switches.old)) lock)
        ≡ (status_alone result, state_of nv vol policy (switches_of switches.new)))
        × (switches.new ≡ cond (eqb result 0) (locked_bytes switches.old) switches.old) }
{
    on_switches(switches, engine::lock, locked_bytes)
}

// Disable, on lent switches. Beside 0 the byte `enabled` is 0 and the other three are as they were; beside any other status all four
// are, and the machine code stores nothing, as in lock.
#[unsafe(no_mangle)]
pub extern "C" fn varpolicy_disable_e10(switches: &mut SwitchBytes) -> u32
    ensures { ((nv vol policy : Bytes) → numbered (step (state_of nv vol policy (switches_of switches.old)) disable)
        ≡ (status_alone result, state_of nv vol policy (switches_of switches.new)))
        × (switches.new ≡ cond (eqb result 0) (disabled_bytes switches.old) switches.old) }
{
    on_switches(switches, engine::disable, disabled_bytes)
}

// Exit, on lent switches. Beside 0 the byte `exited` is 1 and the other three are as they were; beside any other status all four
// are, and the machine code stores nothing, as in lock.
#[unsafe(no_mangle)]
pub extern "C" fn varpolicy_exit(switches: &mut SwitchBytes) -> u32
    ensures { ((nv vol policy : Bytes) → numbered (step (state_of nv vol policy (switches_of switches.old)) exit)
        ≡ (status_alone result, state_of nv vol policy (switches_of switches.new)))
        × (switches.new ≡ cond (eqb result 0) (exited_bytes switches.old) switches.old) }
{
    on_switches(switches, engine::exit, exited_bytes)
}

// Query: the enabled switch.
#[unsafe(no_mangle)]
pub extern "C" fn varpolicy_query_e10(switches: SwitchBytes) -> Queried
    ensures { (nv vol policy : Bytes) → numbered (step (state_of nv vol policy (switches_of switches)) query)
        ≡ (queried_answer result, state_of nv vol policy (switches_of switches)) }
{
    Queried::from(engine::query(Switches::from(switches)))
}

// Read: the variable's attributes, and where its payload stands.
#[unsafe(no_mangle)]
pub extern "C" fn varpolicy_read_e10(
    nv: &[u8],
    vol: &[u8],
    switches: SwitchBytes,
    namespace: &[u8; 16],
    name: &[u8],
) -> Read
    ensures is { result ≡ read_of (reading_of (switches_of switches).exited nv.now vol.now (variable namespace.now name.now)) }
    ensures answers { (policy : Bytes)
        → NumberedRead (state_of nv.now vol.now policy (switches_of switches)) (variable namespace.now name.now) result }
{
    let reading = engine::read(nv, vol, Switches::from(switches), *namespace, name);
    Read::from(reading)
}

// A report in numbers.
fn numbered_report(report: Report) -> Reported
    ensures { result ≡ reported_of report }
{
    let ground = report.ground;
    Reported {
        ground: ground.map_or(0, u32::from),
        place: report.place,
        rank: report.rank,
        missing: report.missing,
        prohibited: report.prohibited,
        lowest_bit: report.lowest,
    }
}

// Set: creates, rewrites, appends to or deletes the variable, and reports what step 4 said. Its answer was the status alone before E1.
#[unsafe(no_mangle)]
pub extern "C" fn varpolicy_set_e10(
    nv: &mut [u8],
    vol: &mut [u8],
    policy: &[u8],
    switches: SwitchBytes,
    namespace: &[u8; 16],
    name: &[u8],
    attributes: u32,
    payload: &[u8],
) -> Written
    ensures { numbered (step (state_of nv.old vol.old policy.now (switches_of switches))
        (set (request_of namespace.now name.now attributes payload.now)))
        ≡ (written_answer result, state_of nv.new vol.new policy.now (switches_of switches)) }
{
    Written::from(engine::set(
        nv,
        vol,
        policy,
        Switches::from(switches),
        *namespace,
        name,
        attributes,
        payload,
    ))
}

// Phase policy: registers the policy of the whole phase namespace. Statuses as of register, but that the entry is never malformed.
#[unsafe(no_mangle)]
pub extern "C" fn varpolicy_phase_policy(
    policy: &mut [u8],
    switches: SwitchBytes,
    phase: &[u8; 16],
) -> u32
    ensures { (nv vol : Bytes) → numbered (phase_step (state_of nv vol policy.old (switches_of switches)) (phase_policy phase.now))
        ≡ (status_alone result, state_of nv vol policy.new (switches_of switches)) }
{
    u32::from(phases::phase_policy(policy, Switches::from(switches), *phase))
}

// Write-once policy: the same of the write-once namespace.
#[unsafe(no_mangle)]
pub extern "C" fn varpolicy_write_once_policy(
    policy: &mut [u8],
    switches: SwitchBytes,
    namespace: &[u8; 16],
) -> u32
    ensures { (nv vol : Bytes) → numbered (phase_step (state_of nv vol policy.old (switches_of switches)) (write_once_policy namespace.now))
        ≡ (status_alone result, state_of nv vol policy.new (switches_of switches)) }
{
    u32::from(phases::write_once_policy(policy, Switches::from(switches), *namespace))
}

// The older lock: registers an entry by which one variable is locked while "EOD" of the phase namespace holds 01. A bad name, or one with '#', is 2 behind 10 alone.
#[unsafe(no_mangle)]
pub extern "C" fn varpolicy_lock_variable(
    policy: &mut [u8],
    switches: SwitchBytes,
    phase: &[u8; 16],
    namespace: &[u8; 16],
    name: &[u8],
) -> u32
    ensures { (nv vol : Bytes) → numbered (phase_step (state_of nv vol policy.old (switches_of switches)) (lock_variable phase.now (variable namespace.now name.now)))
        ≡ (status_alone result, state_of nv vol policy.new (switches_of switches)) }
{
    u32::from(phases::lock_variable(policy, Switches::from(switches), *phase, *namespace, name))
}

// End of DXE: creates the flag "EOD" of the phase namespace. Status and report as of set.
#[unsafe(no_mangle)]
pub extern "C" fn varpolicy_end_of_dxe(
    nv: &mut [u8],
    vol: &mut [u8],
    policy: &[u8],
    switches: SwitchBytes,
    phase: &[u8; 16],
) -> Written
    ensures { numbered (phase_step (state_of nv.old vol.old policy.now (switches_of switches)) (end_of_dxe phase.now))
        ≡ (written_answer result, state_of nv.new vol.new policy.now (switches_of switches)) }
{
    Written::from(phases::end_of_dxe(nv, vol, policy, Switches::from(switches), *phase))
}

// Ready to boot: the same with "RTB".
#[unsafe(no_mangle)]
pub extern "C" fn varpolicy_ready_to_boot(
    nv: &mut [u8],
    vol: &mut [u8],
    policy: &[u8],
    switches: SwitchBytes,
    phase: &[u8; 16],
) -> Written
    ensures { numbered (phase_step (state_of nv.old vol.old policy.now (switches_of switches)) (ready_to_boot phase.now))
        ≡ (written_answer result, state_of nv.new vol.new policy.now (switches_of switches)) }
{
    Written::from(phases::ready_to_boot(nv, vol, policy, Switches::from(switches), *phase))
}

// Exit flag: the same with a name that the caller gives.
#[unsafe(no_mangle)]
pub extern "C" fn varpolicy_exit_flag(
    nv: &mut [u8],
    vol: &mut [u8],
    policy: &[u8],
    switches: SwitchBytes,
    phase: &[u8; 16],
    name: &[u8],
) -> Written
    ensures { numbered (phase_step (state_of nv.old vol.old policy.now (switches_of switches)) (exit_flag phase.now name.now))
        ≡ (written_answer result, state_of nv.new vol.new policy.now (switches_of switches)) }
{
    Written::from(phases::exit_flag(nv, vol, policy, Switches::from(switches), *phase, name))
}

// Settled: if so, and the engine is enabled and locked, the variable's lock holds until the next power-on or restart. The switches are not asked.
#[unsafe(no_mangle)]
pub extern "C" fn varpolicy_settled<'a>(
    nv: &'a [u8],
    vol: &'a [u8],
    policy: &[u8],
    namespace: &[u8; 16],
    name: &[u8],
) -> Settled
    ensures { (w : Switches) → numbered (step (state_of nv.now vol.now policy.now w) (settled (variable namespace.now name.now)))
        ≡ (is_settled_answer result, state_of nv.now vol.now policy.now w) }
{
    Settled::from(engine::settled(nv, vol, policy, *namespace, name))
}

// The answer without a pair.
fn no_pair(status: Status) -> Quarrelled
    ensures { result ≡ no_pair status }
{
    Quarrelled {
        status: u32::from(status),
        found: false,
        earlier: 0,
        later: 0,
        name_length: 0,
    }
}

// The quarrels of a dump: the first two of its entries that have equal ranks and target one variable, and the smallest name that both target at
// the front of the buffer. Not a call on an engine: no part of a state is lent.
#[unsafe(no_mangle)]
pub extern "C" fn varpolicy_quarrels(dump: &[u8], name: &mut [u8; 128]) -> Quarrelled
    ensures { quarrelled dump.now name.old ≡ (result, name.new) }
{
    match quarrels::quarrels(dump, name) {
        Err(NoDump) => no_pair(Status::InvalidParameter),
        Ok(None) => no_pair(Status::Success),
        Ok(Some(first)) => Quarrelled {
            status: u32::from(Status::Success),
            found: true,
            earlier: first.pair.earlier as u32,
            later: first.pair.later as u32,
            name_length: first.length,
        },
    }
}

// The reader of a dump that arrives in pieces: four calls that are lent a reader alone, with any content, and no part of an engine.

// Start: nothing arrived yet. 0.
#[unsafe(no_mangle)]
pub extern "C" fn varpolicy_reader_start(reader: &mut [u8; reader::READER_BYTES]) -> u32
    ensures answer { result ≡ status_number Success }
    ensures after { reader.new ≡ fresh reader.old }
{
    reader::start(reader);
    u32::from(Status::Success)
}

// Feed: the piece is judged together with what arrived before it. 0, or 2 for one that has no byte or more than MAX_PIECE.
#[unsafe(no_mangle)]
pub extern "C" fn varpolicy_reader_feed(
    reader: &mut [u8; reader::READER_BYTES],
    piece: &[u8],
) -> u32
    ensures answer { result ≡ status_number (feed_status piece.now) }
    ensures after { reader.new ≡ after_feed reader.old piece.now }
{
    u32::from(reader::feed(reader, piece))
}

// Verdict: what the reader says of the bytes that arrived. 0.
#[unsafe(no_mangle)]
pub extern "C" fn varpolicy_reader_verdict(reader: &[u8; reader::READER_BYTES]) -> ReaderVerdict
    ensures { result ≡ reader_verdict_of (verdict_in reader.now) }
{
    ReaderVerdict::from(reader::verdict_of(reader))
}

// Entry: what the reader tells of the entry that begins at that byte of the dump, within the good ones. 0, or 14 where none does.
#[unsafe(no_mangle)]
pub extern "C" fn varpolicy_reader_entry(
    reader: &[u8; reader::READER_BYTES],
    at: usize,
) -> ReaderEntry
    ensures { result ≡ reader_entry_of (listing_in reader.now at) }
{
    match reader::listing_at(reader, at) {
        None => ReaderEntry {
            status: u32::from(Status::NotFound),
            size: 0,
            lock: 0,
            rank: 0,
        },
        Some(Listing { size, lock, rank }) => ReaderEntry {
            status: u32::from(Status::Success),
            size,
            lock,
            rank,
        },
    }
}
