// Sets of rules.
ghost use Rattle.std.specs.Prelude.{◌≡◌, ◌<◌, ◌≤◌, position};
ghost use Rattle.rule_sets.specs.Members.{has, some_rule, Empty, Below, Inserted, Removed, WithBit, WithoutBit, United, UnitedWord, NoneBelow, Lowest, LowestBit};

use rule_families::family::MOST_RULES;

// How many words have a bit for each rule.
const MOST_WORDS: usize = MOST_RULES / 64;

// A set of rules, as a bit for each: rule r is bit r % 64 of word r / 64.
#[derive(Clone, Copy)]
pub struct RuleSet {
    words: [u64; MOST_WORDS],
}

impl RuleSet {
    #[tactic(auto, using(crate::proofs::Bits::empty))]
    pub fn none() -> RuleSet
        ensures { Empty result }
    {
        RuleSet {
            words: [0; MOST_WORDS],
        }
    }

    // The rules below a number.
    pub fn below(rules: usize) -> RuleSet
        requires { rules ≤ 4096 }
        ensures { Below rules result }
    {
        let mut set = RuleSet::none();
        for rule in 0..rules {
            set.insert(rule);
        }
        set
    }

    #[tactic(auto, using(crate::proofs::Bits::inserted))]
    pub fn insert(&mut self, rule: usize)
        requires { rule < 4096 }
        ensures { Inserted self.old rule self.new }
    {
        self.words[rule / 64] = with_bit(self.words[rule / 64], rule % 64);
    }

    pub fn contains(&self, rule: usize) -> bool
        requires { rule < 4096 }
        ensures { result ≡ has self.now rule }
    {
        self.words[rule / 64] >> (rule % 64) & 1 == 1
    }

    #[tactic(auto, using(crate::proofs::Bits::removed))]
    pub fn remove(&mut self, rule: usize)
        requires { rule < 4096 }
        ensures { Removed self.old rule self.new }
    {
        self.words[rule / 64] = without_bit(self.words[rule / 64], rule % 64);
    }

    // Adds the other's rules that are below so many words.
    #[tactic(auto, using(crate::proofs::Bits::united))]
    pub fn unite(&mut self, other: &RuleSet, words: usize)
        requires { words ≤ 64 }
        ensures { United self.old other.now words self.new }
    {
        for word in 0..words {
            self.words[word] |= other.words[word];
        }
    }

    // Adds the rules of one word whose bits are set.
    #[tactic(auto, using(crate::proofs::Bits::united_word))]
    pub fn unite_word(&mut self, word: usize, bits: u64)
        requires { word < 64 }
        ensures { UnitedWord self.old word bits self.new }
    {
        self.words[word] |= bits;
    }

    // The lowest of the rules that are below so many words.
    pub fn first(&self, words: usize) -> Option<usize>
        requires { words ≤ 64 }
        ensures { Lowest self.now words result }
    {
        self.first_past(0, words)
    }

    // The same, where so many words were passed and have no rule.
    pub fn first_past(&self, passed: usize, words: usize) -> Option<usize>
        requires words { (passed ≤ words) × (words ≤ 64) }
        requires passed { NoneBelow self.now passed }
        ensures { Lowest self.now words result }
    {
        let more = first_with_rules(&self.words[passed..words])?;
        let word = passed + more;
        Some(64 * word + self.words[word].trailing_zeros() as usize)
    }
}

// The first word that has a rule.
fn first_with_rules(words: &[u64]) -> Option<usize>
    ensures { result ≡ position some_rule words.now }
{
    words.iter().position(|word| *word != 0)
}

// Words are sets of the numbers below 64 in the same way.
pub fn with_bit(word: u64, bit: usize) -> u64
    requires { bit < 64 }
    ensures { WithBit word bit result }
{
    word | 1 << bit
}

pub fn without_bit(word: u64, bit: usize) -> u64
    requires { bit < 64 }
    ensures { WithoutBit word bit result }
{
    word & !(1 << bit)
}

// Kept: nothing is proved of the closure that `then` would take.
pub fn lowest_bit(word: u64) -> Option<usize>
    ensures { LowestBit word result }
{
    if word == 0 {
        return None;
    }
    Some(word.trailing_zeros() as usize)
}
