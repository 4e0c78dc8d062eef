// Phase flags, the write-once namespace and the older variable lock (RULES.md, 10.15), above the engine: each call writes bytes of its own, hands them to one call of
// the engine, and hands on what that answers. Nothing here sees a byte of a store or of the policy record. Both namespaces are the caller's. Each promise is an equation with
// `phase_step`, which is the rules' `step` of that call.
#![tactic(auto)]

ghost use Rattle.std.specs.Prelude.{◌≡◌, ◌++◌, cond, ◌≤◌, eqb, length};
ghost use Rattle.limits.specs.Limits.{entry_version};
ghost use Rattle.slices.specs.Bytes.{Bytes, le16_bytes, le32_bytes, overwrite};
ghost use Rattle.slices.specs.Test.{◌and◌};
ghost use Rattle.names.specs.Name.{variable, is_name, units, wildcards};
ghost use Rattle.policy.specs.Policy.{policy_valid};
ghost use Rattle.status.specs.declared.Status.TheVariants.{InvalidParameter, VolumeCorrupted};
ghost use Rattle.rules.specs.Engine.{state_of, step, only_status, with_report};
ghost use Rattle.rules.specs.Engine.Call.{register};
ghost use Rattle.rules.specs.Phases.{flag_entry, lock_entry, phase_step};
ghost use Rattle.rules.specs.Phases.PhaseCall.{phase_policy, write_once_policy, lock_variable, end_of_dxe, ready_to_boot, exit_flag};

use engine::SetAnswer;
use status::Status;
use switches::Switches;

// The bytes of an older lock before the variable's name: the header, and the trigger with its name "EOD".
const LOCK_NAME_AT: usize = 70;

// The most bytes of an older lock.
const MAX_LOCK: usize = LOCK_NAME_AT + limits::MAX_NAME_SIZE;

// BS and RT.
const BOOT_AND_RUNTIME: u32 = 6;

// Writes the header of an entry: Version, Size, OffsetToName, the namespace, and the 20 bytes from MinSize to the reserved ones.
fn put_header(s: &mut [u8], size: usize, offset: usize, namespace: &[u8], rest: &[u8])
    requires { (44 ≤ length s.old) × (length namespace.now ≡ 16) × (length rest.now ≡ 20) }
    ensures { s.new ≡ overwrite s.old 0 (le32_bytes entry_version ++ (le16_bytes size ++ (le16_bytes offset ++ (namespace.now ++ rest.now)))) }
{
    let version = [0u8, 0, 1, 0];
    slices::copy_in(s, limits::VERSION_AT, &version);
    slices::put16(s, limits::SIZE_AT, size);
    slices::put16(s, limits::OFFSET_TO_NAME_AT, offset);
    slices::copy_in(s, limits::NAMESPACE_AT, namespace);
    slices::copy_in(s, limits::MIN_SIZE_AT, rest);
}

// The policy of a whole namespace of flags: each has one byte, BS and RT and not NV, and is locked once it is created.
fn flag_entry(namespace: [u8; 16]) -> [u8; 44]
    ensures { result ≡ flag_entry namespace }
{
    let rest = [1u8, 0, 0, 0, 1, 0, 0, 0, 6, 0, 0, 0, 1, 0, 0, 0, 2, 0, 0, 0];
    let mut entry = [0u8; 44];
    put_header(
        &mut entry,
        limits::ENTRY_HEADER,
        limits::ENTRY_HEADER,
        &namespace,
        &rest,
    );
    entry
}

// Registers the policy of a whole namespace of flags.
fn register_flags(policy: &mut [u8], switches: Switches, namespace: [u8; 16]) -> Status
    ensures { (nv vol : Bytes) → step (state_of nv vol policy.old switches) (register (flag_entry namespace))
        ≡ (only_status result, state_of nv vol policy.new switches) }
{
    let entry = flag_entry(namespace);
    engine::register(policy, switches, &entry)
}

// Registers the policy of the whole phase namespace. Statuses as of register; never INVALID_PARAMETER.
pub fn phase_policy(policy: &mut [u8], switches: Switches, phase: [u8; 16]) -> Status
    ensures { (nv vol : Bytes) → phase_step (state_of nv vol policy.old switches) (phase_policy phase)
        ≡ (only_status result, state_of nv vol policy.new switches) }
{
    register_flags(policy, switches, phase)
}

// Registers the policy of the whole write-once namespace: the same, of another namespace.
pub fn write_once_policy(policy: &mut [u8], switches: Switches, namespace: [u8; 16]) -> Status
    ensures { (nv vol : Bytes) → phase_step (state_of nv vol policy.old switches) (write_once_policy namespace)
        ≡ (only_status result, state_of nv vol policy.new switches) }
{
    register_flags(policy, switches, namespace)
}

// Whether the name is one to lock: one that a set takes, and without '#'.
fn is_lockable(name: &[u8]) -> bool
    ensures { result ≡ (is_name name.now and eqb (wildcards (units name.now)) 0) }
{
    if !names::is_name(name) {
        return false;
    }
    names::wildcards(name) == 0
}

// What a name that is none to lock is answered. VOLUME_CORRUPTED comes first, and the engine tells it: a dump into no room writes nothing.
fn bad_name(policy: &[u8], switches: Switches) -> Status
    ensures { result ≡ cond (policy_valid policy.now) InvalidParameter VolumeCorrupted }
{
    let mut none = [0u8; 0];
    let answer = engine::dump(policy, switches, &mut none);
    if answer.status == Status::VolumeCorrupted {
        return Status::VolumeCorrupted;
    }
    Status::InvalidParameter
}

// Writes the older lock of a variable at the start of a buffer.
fn put_lock(s: &mut [u8], phase: &[u8], namespace: &[u8], name: &[u8])
    requires { (length s.old ≡ 200) × (length phase.now ≡ 16) × (length namespace.now ≡ 16) × (length name.now ≤ 128) × (2 ≤ length name.now) }
    ensures { s.new ≡ overwrite s.old 0 (lock_entry phase.now (variable namespace.now name.now)) }
{
    let rest = [
        0u8, 0, 0, 0, 255, 255, 255, 255, 0, 0, 0, 0, 0, 0, 0, 0, 3, 0, 0, 0,
    ];
    // Value 1, a reserved byte, and "EOD" with its zero unit
    let trigger = [1u8, 0, 0x45, 0, 0x4F, 0, 0x44, 0, 0, 0];
    let end = LOCK_NAME_AT + name.len();
    put_header(s, end + 2, LOCK_NAME_AT, namespace, &rest);
    slices::copy_in(s, limits::TRIGGER_NAMESPACE_AT, phase);
    slices::copy_in(s, limits::TRIGGER_VALUE_AT, &trigger);
    slices::copy_in(s, LOCK_NAME_AT, name);
    slices::fill(s, end, 2, 0);
}

// The older lock: registers an entry that locks one variable once "EOD" of the phase namespace holds 01.
// VOLUME_CORRUPTED where the record is not valid; then INVALID_PARAMETER for a name that a set would not take, or one with '#'; then as register.
pub fn lock_variable(
    policy: &mut [u8],
    switches: Switches,
    phase: [u8; 16],
    namespace: [u8; 16],
    name: &[u8],
) -> Status
    ensures { (nv vol : Bytes) → phase_step (state_of nv vol policy.old switches) (lock_variable phase (variable namespace name.now))
        ≡ (only_status result, state_of nv vol policy.new switches) }
{
    if !is_lockable(name) {
        return bad_name(policy, switches);
    }
    let mut entry = [0u8; MAX_LOCK];
    put_lock(&mut entry, &phase, &namespace, name);
    let size = LOCK_NAME_AT + name.len() + 2;
    engine::register(policy, switches, &entry[..size])
}

// Creates the flag of a name that the caller gives, in the phase namespace: BS and RT alone, payload 01. Status and report as of set.
pub fn exit_flag(
    nv: &mut [u8],
    vol: &mut [u8],
    policy: &[u8],
    switches: Switches,
    phase: [u8; 16],
    name: &[u8],
) -> SetAnswer
    ensures { phase_step (state_of nv.old vol.old policy.now switches) (exit_flag phase name.now)
        ≡ (with_report result.status result.report, state_of nv.new vol.new policy.now switches) }
{
    let payload = [1u8];
    engine::set(
        nv,
        vol,
        policy,
        switches,
        phase,
        name,
        BOOT_AND_RUNTIME,
        &payload,
    )
}

// Creates "EOD": the end of DXE came. This and the next are thin: what they share is exit_flag, and only the name differs.
pub fn end_of_dxe(
    nv: &mut [u8],
    vol: &mut [u8],
    policy: &[u8],
    switches: Switches,
    phase: [u8; 16],
) -> SetAnswer
    ensures { phase_step (state_of nv.old vol.old policy.now switches) (end_of_dxe phase)
        ≡ (with_report result.status result.report, state_of nv.new vol.new policy.now switches) }
{
    let name = [0x45u8, 0, 0x4F, 0, 0x44, 0];
    exit_flag(nv, vol, policy, switches, phase, &name)
}

// Creates "RTB": the system is ready to boot.
pub fn ready_to_boot(
    nv: &mut [u8],
    vol: &mut [u8],
    policy: &[u8],
    switches: Switches,
    phase: [u8; 16],
) -> SetAnswer
    ensures { phase_step (state_of nv.old vol.old policy.now switches) (ready_to_boot phase)
        ≡ (with_report result.status result.report, state_of nv.new vol.new policy.now switches) }
{
    let name = [0x52u8, 0, 0x54, 0, 0x42, 0];
    exit_flag(nv, vol, policy, switches, phase, &name)
}
