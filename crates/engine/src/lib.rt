// The calls of the engine (RULES.md, 10). The promise of each is one equation with the rules' `step`: from the state before, with the parts
// that the call is not lent as they may be, to the answer and the state afterwards, for every input. The read pair is one call
// of the rules: its first call tells the status, the attributes and where the payload stands, its second hands that part back.
#![tactic(auto)]

ghost use Rattle.std.specs.Prelude.{◌≡◌, true, false, cond};
ghost use Rattle.slices.specs.Bytes.{Bytes};
ghost use Rattle.store.specs.Parts.{variable};
ghost use Rattle.stores.specs.Place.{Within};
ghost use Rattle.status.specs.Status.{is_success};
ghost use Rattle.status.specs.declared.Status.TheVariants.{Success, VolumeCorrupted};
ghost use Rattle.switches.specs.declared.Switches.{Switches};
ghost use Rattle.switches.specs.Switches.{fresh_switches};
ghost use Rattle.rules.specs.Set.{request_of};
ghost use Rattle.rules.specs.Report.{no_report};
ghost use Rattle.rules.specs.Engine.{state_of, step, only_status, hand_back, with_report};
ghost use Rattle.rules.specs.Engine.Call.{power_on, restart, register, dump, lock, disable, exit, query, read, set, settled};
ghost use Rattle.engine.specs.Answers.{dump_answer, query_answer, refused_reading, reading_at, reading_of, ReadStep, payload_place, settled_answer, not_settled};

use entry::Packed;
use policy::Entries;
use rules::Report;
use set::{Located, Request};
use status::Status;
use stores::{Place, Stores};
use switches::{SwitchAnswer, Switches};

// What a read tells: its status, the variable's attributes, which store holds it, and from where up to where its payload stands there. Zeros beside a refusal.
#[derive(Clone, Copy)]
pub struct Reading {
    pub status: Status,
    pub attributes: u32,
    pub nonvolatile: bool,
    pub from: usize,
    pub to: usize,
}

// A dump's status, and beside 0 the length written, beside 5 the length needed.
// No Result: what may not change, the clause of `dump` is an equation with `step`, whose answer has a length beside 5 as beside 0.
#[derive(Clone, Copy)]
pub struct DumpAnswer {
    pub status: Status,
    pub length: usize,
}

// A query's status and the enabled switch.
// No Result: no query is refused. What may not change, the clause of `query` is an equation with `step`, whose answer has a status also where it is always 0.
#[derive(Clone, Copy)]
pub struct QueryAnswer {
    pub status: Status,
    pub enabled: bool,
}

// A set's status, and what step 4 said (RULES.md, 10.10).
// No Result: what may not change, the clause of `set` is an equation with `step`, whose answer has the report beside a refusal of step 4, and only there a ground.
#[derive(Clone, Copy)]
pub struct SetAnswer {
    pub status: Status,
    pub report: Report,
}

// Whether a variable is settled (RULES.md, 10.14), with the status; false beside a refusal.
#[derive(Clone, Copy)]
pub struct SettledAnswer {
    pub status: Status,
    pub settled: bool,
}

// What a refused power-on or restart answers: an engine that neither registers nor can be disabled.
const REFUSED_START: SwitchAnswer = SwitchAnswer {
    status: Status::VolumeCorrupted,
    switches: Switches {
        enabled: true,
        locked: true,
        disabling_allowed: false,
        exited: false,
    },
};

// What a power-on or restart that is done answers.
fn fresh_start(disabling_allowed: bool) -> SwitchAnswer
    ensures { result ≡ record { status = Success; switches = fresh_switches disabling_allowed } }
{
    SwitchAnswer {
        status: Status::Success,
        switches: Switches {
            enabled: true,
            locked: false,
            disabling_allowed,
            exited: false,
        },
    }
}

// Powers the engine on (RULES.md, 10.1): wipes the volatile store and the policy record and hands back the switches of a fresh
// engine. VOLUME_CORRUPTED, with the switches of a refused start (RULES.md, 8.1), where the
// non-volatile store is unsound, the volatile one has more than 32,768 bytes or the policy record has another length.
pub fn power_on(
    nv: &[u8],
    vol: &mut [u8],
    policy: &mut [u8],
    disabling_allowed: bool,
) -> SwitchAnswer
    ensures { (w : Switches) → step (state_of nv.now vol.old policy.old w) (power_on disabling_allowed)
        ≡ (
          hand_back result.status result.switches,
          state_of nv.now vol.new policy.new (cond (is_success result.status) result.switches w),
        ) }
{
    if !stores::check_alone(nv) {
        return REFUSED_START;
    }
    let length = vol.len();
    if limits::MAX_STORE < length {
        return REFUSED_START;
    }
    if policy.len() != limits::POLICY_BYTES {
        return REFUSED_START;
    }
    slices::fill(vol, 0, length, 255);
    policy::clear(policy);
    fresh_start(disabling_allowed)
}

// Restarts the engine over the same stores, which it leaves as they are. VOLUME_CORRUPTED, with switches as a refused power-on
// hands back, where the stores are unsound or the policy record has another length.
// It asks for the check's yes or no alone and reads nothing of the stores behind it: `let Some(_) = Stores::new(nv, vol)` is no plainer.
pub fn restart(nv: &[u8], vol: &[u8], policy: &mut [u8], disabling_allowed: bool) -> SwitchAnswer
    ensures { (w : Switches) → step (state_of nv.now vol.now policy.old w) (restart disabling_allowed)
        ≡ (
          hand_back result.status result.switches,
          state_of nv.now vol.now policy.new (cond (is_success result.status) result.switches w),
        ) }
{
    let Some(_) = stores::check(nv, vol) else {
        return REFUSED_START;
    };
    if policy.len() != limits::POLICY_BYTES {
        return REFUSED_START;
    }
    policy::clear(policy);
    fresh_start(disabling_allowed)
}

// Registers a policy entry behind those of the lent policy record.
// VOLUME_CORRUPTED where the record is not valid; UNSUPPORTED after exit; WRITE_PROTECTED where the engine is locked; INVALID_PARAMETER
// for a malformed entry; ALREADY_STARTED where an entry of the same namespace and name is registered; OUT_OF_RESOURCES where there are
// as many entries as the limit, or the sum of Sizes would be over it.
// No Result<(), Status>: what may not change, its clause is an equation with `step`, whose answer is a status and no more, granted or refused (`only_status`).
pub fn register(policy: &mut [u8], switches: Switches, entry: &[u8]) -> Status
    ensures { (nv vol : Bytes) → step (state_of nv vol policy.old switches) (register entry.now)
        ≡ (only_status result, state_of nv vol policy.new switches) }
{
    let Some(extent) = policy::check(policy) else {
        return Status::VolumeCorrupted;
    };
    if switches.exited {
        return Status::Unsupported;
    }
    if switches.locked {
        return Status::WriteProtected;
    }
    let Some(_) = entry::parse(entry) else {
        return Status::InvalidParameter;
    };
    let entry = Packed { bytes: entry };
    if policy::contains(policy, extent.count, entry) {
        return Status::AlreadyStarted;
    }
    if limits::MAX_ENTRIES <= extent.count {
        return Status::OutOfResources;
    }
    if limits::POLICY_BYTES < extent.used + entry.bytes.len() {
        return Status::OutOfResources;
    }
    policy::append(policy, extent.used, entry.bytes);
    Status::Success
}

// Writes the entries in the order registered from the start of the buffer; its later bytes stay.
// VOLUME_CORRUPTED where the record is not valid; UNSUPPORTED after exit; BUFFER_TOO_SMALL, with the needed length, where the buffer
// is shorter than the sum of Sizes.
pub fn dump(policy: &[u8], switches: Switches, buffer: &mut [u8]) -> DumpAnswer
    ensures { (nv vol : Bytes) → step (state_of nv vol policy.now switches) (dump buffer.old)
        ≡ (dump_answer result buffer.new, state_of nv vol policy.now switches) }
{
    let Some(extent) = policy::check(policy) else {
        return DumpAnswer {
            status: Status::VolumeCorrupted,
            length: 0,
        };
    };
    if switches.exited {
        return DumpAnswer {
            status: Status::Unsupported,
            length: 0,
        };
    }
    if buffer.len() < extent.used {
        return DumpAnswer {
            status: Status::BufferTooSmall,
            length: extent.used,
        };
    }
    policy::dump_into(policy, extent.used, buffer);
    DumpAnswer {
        status: Status::Success,
        length: extent.used,
    }
}

// Locks the engine: no entry is registered until the next power-on or restart.
// UNSUPPORTED after exit; WRITE_PROTECTED where it is locked already.
pub fn lock(switches: Switches) -> SwitchAnswer
    ensures { (nv vol policy : Bytes) → step (state_of nv vol policy switches) lock
        ≡ (only_status result.status, state_of nv vol policy result.switches) }
{
    switches::lock(switches)
}

// Disables the engine: sets are no longer held to the entries, until the next power-on or restart.
// UNSUPPORTED after exit; ALREADY_STARTED where it is disabled; WRITE_PROTECTED where it is locked or disabling is not allowed.
pub fn disable(switches: Switches) -> SwitchAnswer
    ensures { (nv vol policy : Bytes) → step (state_of nv vol policy switches) disable
        ≡ (only_status result.status, state_of nv vol policy result.switches) }
{
    switches::disable(switches)
}

// Tells the engine that the operating system starts: until the next power-on or restart, what RULES.md, 8.1, says of exited.
// UNSUPPORTED where it has exited already.
pub fn exit(switches: Switches) -> SwitchAnswer
    ensures { (nv vol policy : Bytes) → step (state_of nv vol policy switches) exit
        ≡ (only_status result.status, state_of nv vol policy result.switches) }
{
    switches::exit(switches)
}

// Tells the enabled switch.
pub fn query(switches: Switches) -> QueryAnswer
    ensures { (nv vol policy : Bytes) → step (state_of nv vol policy switches) query
        ≡ (query_answer result, state_of nv vol policy switches) }
{
    QueryAnswer {
        status: Status::Success,
        enabled: switches.enabled,
    }
}

// What a refused read tells.
fn refused_reading(status: Status) -> Reading
    ensures { result ≡ refused_reading status }
{
    Reading {
        status,
        attributes: 0,
        nonvolatile: false,
        from: 0,
        to: 0,
    }
}

// What a read tells of the record at a place.
fn reading_at<'a>(stores: Stores<'a>, place: Place) -> Reading
    requires { Within stores.nv.now stores.vol.now place }
    ensures { result ≡ reading_at stores.entry.nv.now stores.entry.vol.now place }
{
    let bounds = stores.payload_bounds(place);
    Reading {
        status: Status::Success,
        attributes: stores.attributes_at(place),
        nonvolatile: place.nonvolatile,
        from: bounds.from,
        to: bounds.to,
    }
}

// The first call of the read pair: the status, the attributes, and where the payload stands. VOLUME_CORRUPTED where the stores are
// unsound; INVALID_PARAMETER for a bad name; NOT_FOUND where the variable is absent or, after exit, has no RT.
pub fn read(nv: &[u8], vol: &[u8], switches: Switches, namespace: [u8; 16], name: &[u8]) -> Reading
    ensures is { result ≡ reading_of switches.exited nv.now vol.now (variable namespace name.now) }
    ensures answers { (policy : Bytes)
        → ReadStep (state_of nv.now vol.now policy switches) (variable namespace name.now) result }
{
    let Some(stores) = Stores::new(nv, vol) else {
        return refused_reading(Status::VolumeCorrupted);
    };
    if !names::is_name(name) {
        return refused_reading(Status::InvalidParameter);
    }
    let place = stores.locate(&namespace, name);
    if !set::is_shown(switches.exited, stores.nv, stores.vol, place) {
        return refused_reading(Status::NotFound);
    }
    reading_at(stores, place)
}

// The second call of the read pair (RULES.md, 10.8): the payload as a subslice of its store, and of length 0 where the read is refused.
// It reads again and cuts the store: what may not change, `ref_ptr_value` says where the subslice begins, and `Stores::payload_at` promises its bytes alone.
pub fn payload<'a>(
    nv: &'a [u8],
    vol: &'a [u8],
    switches: Switches,
    namespace: [u8; 16],
    name: &[u8],
) -> &'a [u8]
    ensures result_value { (policy : Bytes)
        → result.now ≡ (step (state_of nv.now vol.now policy switches) (read (variable namespace name.now))).0.bytes }
    ensures ref_ptr_value { result.ref_ptr ≡ payload_place nv.entry.ref_ptr vol.entry.ref_ptr (reading_of switches.exited nv.now vol.now (variable namespace name.now)) }
{
    let reading = read(nv, vol, switches, namespace, name);
    let from = reading.from;
    let to = reading.to;
    if reading.nonvolatile {
        &nv[from..to]
    } else {
        &vol[from..to]
    }
}

// What a set answers where the stores are not sound or the policy record is not valid.
fn corrupted_set() -> SetAnswer
    ensures { result ≡ record { status = VolumeCorrupted; report = no_report } }
{
    SetAnswer {
        status: Status::VolumeCorrupted,
        report: set::no_report(),
    }
}

// Creates, rewrites, appends to or deletes a variable.
// VOLUME_CORRUPTED where the stores are unsound or the policy record is not valid; then the first of:
// 1. INVALID_PARAMETER for a bad name or a payload over 1,024 bytes; 2. UNSUPPORTED for an attribute bit outside 0x47;
// 3. INVALID_PARAMETER for RT or append without BS, and after exit for a set that is no deletion without one of NV, BS and RT;
// 4. what the chosen entry gives: INVALID_PARAMETER for the size that the payload would have afterwards or for the attributes,
// WRITE_PROTECTED for a lock; 5. NOT_FOUND for the deletion of a variable that is absent or, after exit, has no RT, and WRITE_PROTECTED,
// after exit, for that of a volatile one; 6. INVALID_PARAMETER for other attributes than the stored ones; 8. OUT_OF_RESOURCES for an
// append that would exceed 1,024 bytes; 9. OUT_OF_RESOURCES for no room.
pub fn set(
    nv: &mut [u8],
    vol: &mut [u8],
    policy: &[u8],
    switches: Switches,
    namespace: [u8; 16],
    name: &[u8],
    attributes: u32,
    payload: &[u8],
) -> SetAnswer
    ensures { step (state_of nv.old vol.old policy.now switches)
        (set (request_of namespace name.now attributes payload.now))
        ≡ (with_report result.status result.report, state_of nv.new vol.new policy.now switches) }
{
    let Some(stores) = Stores::new(nv, vol) else {
        return corrupted_set();
    };
    let mut entry_ends = policy::no_ends();
    let Some(extent) = policy::check_noting(policy, &mut entry_ends) else {
        return corrupted_set();
    };
    let entries = Entries {
        bytes: policy,
        count: extent.count,
        ends: &entry_ends,
    };
    let request = Request {
        namespace: &namespace,
        name,
        attributes,
        payload,
    };
    let located = Located::new(request, stores);
    let decided = set::decide(entries, switches, located);
    let decision = decided.decision;
    let report = decided.report;
    let known = located.known();
    set::carry_out(decision, nv, vol, known, request);
    SetAnswer {
        status: set::status_of(decision),
        report,
    }
}

// A variable that is not settled, or a refusal to tell.
fn not_settled(status: Status) -> SettledAnswer
    ensures { result ≡ not_settled status }
{
    SettledAnswer {
        status,
        settled: false,
    }
}

// Tells whether a variable is settled. If it is, and the engine is enabled and locked, its lock holds until the next power-on or restart.
// VOLUME_CORRUPTED where the stores are unsound or the policy record is not valid; INVALID_PARAMETER for a bad name. The switches are not asked.
pub fn settled<'a>(
    nv: &'a [u8],
    vol: &'a [u8],
    policy: &[u8],
    namespace: [u8; 16],
    name: &[u8],
) -> SettledAnswer
    ensures { (w : Switches) → step (state_of nv.now vol.now policy.now w) (settled (variable namespace name.now))
        ≡ (settled_answer result, state_of nv.now vol.now policy.now w) }
{
    let Some(stores) = Stores::new(nv, vol) else {
        return not_settled(Status::VolumeCorrupted);
    };
    let mut entry_ends = policy::no_ends();
    let Some(extent) = policy::check_noting(policy, &mut entry_ends) else {
        return not_settled(Status::VolumeCorrupted);
    };
    if !names::is_name(name) {
        return not_settled(Status::InvalidParameter);
    }
    let entries = Entries {
        bytes: policy,
        count: extent.count,
        ends: &entry_ends,
    };
    SettledAnswer {
        status: Status::Success,
        settled: settled::is_settled(entries, stores, &namespace, name),
    }
}
