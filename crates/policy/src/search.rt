// The search for the entry that is chosen for a variable.

ghost use Rattle.std.specs.Prelude.{◌≡◌, ℕ, ◌<◌, get_or};
ghost use Rattle.names.specs.Tail.{whole_units, TailOf};

use crate::Entries;
use entry::Packed;
use names::Tail;

// The variable, and what the last units of its name show. (That bytes are less than 256 is not told of a field.)
#[derive(Clone, Copy)]
pub struct Search<'a> {
    namespace: &'a [u8; 16],
    name: &'a [u8],
    tail: Tail,
    ghost shows: { TailOf (whole_units name.now) tail.mask tail.shown },
    ghost fit: { (k : ℕ) → get_or name.now k 0 < 256 },
}

impl<'a> Search<'a> {
    ghost use Rattle.std.specs.Prelude.{true, ◌≤◌, ◌||◌, cond, length, MatchOption};
    ghost use Rattle.limits.specs.Limits.{no_rank};
    ghost use Rattle.slices.specs.Bytes.{part};
    ghost use Rattle.names.specs.Name.{units, matches, variable};
    ghost use Rattle.entry.specs.Entry.{well_formed, name_is_empty, name_of, targets, rank};
    ghost use Rattle.policy.specs.Walk.{PassedTo, PassedAll};

    // The search for the variable of that namespace and name.
    pub fn new(namespace: &'a [u8; 16], name: &'a [u8]) -> Search<'a>
        ensures { (result.namespace.now ≡ namespace.now) × (result.name.now ≡ name.now) }
    {
        let tail = names::tail_of(&name[..2 * (name.len() / 2)]);
        Search {
            namespace,
            name,
            tail,
        }
    }

    // Whether the name of the entry from byte at up to end is empty or may match, as far as its length, its last four units and its
    // first ones tell. Where not, it is neither. Most entries are told apart by the word that the last four units are.
    fn may_name(self, policy: &[u8], at: usize, end: usize) -> bool
        requires { (end ≤ length policy.now) × (well_formed (part at end policy.now) ≡ true) }
        ensures { (name_is_empty (part at end policy.now) || matches (units (name_of (part at end policy.now))) (units self.entry.name.now)) ≡ true
            → result ≡ true }
    {
        let start = at + slices::get16(policy, at + limits::OFFSET_TO_NAME_AT);
        let n = 2 * (self.name.len() / 2);
        if start + n + 2 == end {
            if slices::get64(policy, end - 10) & self.tail.mask != self.tail.shown {
                return false;
            }
            return names::may_match(&policy[start..start + n], &self.name[..n]);
        }
        start == end
    }

    // Whether that entry may target the variable. Where not, it does not. The names come first: they tell more entries apart than
    // namespaces do.
    fn may_target(self, policy: &[u8], at: usize, end: usize) -> bool
        requires { (end ≤ length policy.now) × (well_formed (part at end policy.now) ≡ true) }
        ensures { targets (part at end policy.now) (variable self.entry.namespace.now self.entry.name.now) ≡ true → result ≡ true }
    {
        if !self.may_name(policy, at, end) {
            return false;
        }
        let namespace = self.namespace;
        names::same_namespace(
            &policy[at + limits::NAMESPACE_AT..at + limits::MIN_SIZE_AT],
            namespace,
        )
    }

    // The first entry that may target the variable, from the one at index first on. (Kept out of `choose`, where its loop would share the registers
    // with what follows; and lent both, which `choose` would copy for each candidate.)
    #[inline(never)]
    pub fn candidate(&self, entries: &Entries<'_>, first: usize) -> Option<usize>
        requires { first ≤ entries.now.count }
        ensures { MatchOption result (PassedAll entries.now.bytes.now (variable self.now.namespace.now self.now.name.now) first)
            (λ i. (first ≤ i) × (i < entries.now.count) × PassedTo entries.now.bytes.now (variable self.now.namespace.now self.now.name.now) first i) }
    {
        let mut at = entries.start(first);
        for index in first..entries.count {
            let end = entries.ends[index] as usize;
            if self.may_target(entries.bytes, at, end) {
                return Some(index);
            }
            at = end;
        }
        None
    }

    // The rank of an entry that targets the variable, and NO_RANK where it does not.
    pub fn rank_for(self, e: Packed<'_>) -> usize
        ensures { result ≡ cond (targets e.entry.bytes.now (variable self.entry.namespace.now self.entry.name.now)) (rank e.entry.bytes.now) no_rank }
    {
        let namespace = self.namespace;
        if !names::same_namespace(e.namespace(), namespace) {
            return limits::NO_RANK;
        }
        let own = e.name();
        if own.is_empty() {
            return limits::WHOLE_NAMESPACE_RANK;
        }
        if names::matches(own, self.name) {
            return names::wildcards(own);
        }
        limits::NO_RANK
    }
}
