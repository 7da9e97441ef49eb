// Bit-swaps: moving rules and headers, the inverse, and one swap after another. Only this module makes a header in
// swapped order, and only by a swap.
ghost use Rattle.std.specs.Prelude.{◌≡◌, true, ◌≤◌, ◌<◌, ◌^◌, take};
ghost use Rattle.words.specs.Words.{place_bit};
ghost use Rattle.words.specs.Halves.{num, halves};
ghost use Rattle.rules.specs.Rule.{rule_of, held};
ghost use Rattle.rules.specs.Checks.{widest};
ghost use Rattle.rules.specs.Replies.{verdict_reply, looked_reply};
ghost use Rattle.rules.specs.Calls.{looked_in};
ghost use Rattle.swaps.specs.Swaps.{moved, moved_rule, times, entry_good, good, inverse, composed};
ghost use Rattle.swaps.specs.SwapCalls.{SwapGiven, places_check, check_swap, check_swap_rule, check_swap_header, check_swaps, inverted, joined};

use rules::{
    Hit, Reason, Refusal, Rule, RuleList, Wire, check_header, check_rule, check_width,
    lookup_number, refused,
};
use words::Word;

// A header in swapped order. Its word is private: outside this module one comes only from `apply`.
#[derive(Clone, Copy)]
pub struct Swapped(Word);

// An order of the places 1 to width: what stands at the place that entry k names comes to place k. Entries past the width are 0.
#[derive(Clone, Copy)]
pub struct Swap {
    pub places: [u8; 128],
    pub width: u32,
}

// The bit of a word at a place, counted from the left in a word of this width.
pub fn place_bit(width: u32, word: Word, place: u32) -> u64
    ensures { result ≡ place_bit width (num word) place }
{
    bits::bit_at(word, width.saturating_sub(place))
}

// Two swaps: the first's 1 and 9, then the second's, then 9 where the widths differ.
#[tactic(auto, using(rules::proofs::ReplyLaws::passing), unfolding(crate::specs::SwapCalls::check_swaps))]
fn check_swaps(first: &Swap, second: &Swap) -> Result<(), Refusal>
    ensures { verdict_reply result ≡ check_swaps widest first.now second.now }
{
    first.check()?;
    second.check()?;
    if first.width == second.width {
        return Ok(());
    }
    refused(Reason::Swap, 0, 0)
}

impl Swap {
    // The entries that count, one for each place.
    fn entries(&self) -> &[u8]
        requires { self.now.width ≤ widest }
        ensures { result.now ≡ take self.now.width self.now.places }
    {
        &self.places[..self.width as usize]
    }

    // How many of the entries are `place`.
    fn times_of(&self, place: u8) -> usize
        requires { self.now.width ≤ widest }
        ensures { result ≡ times self.now.width self.now.places place }
    {
        let mut n = 0usize;
        for p in self.entries() {
            if *p == place {
                n += 1;
            }
        }
        n
    }

    // Whether entry k + 1 is as a swap of this width has it.
    #[tactic(auto, unfolding(crate::specs::Swaps::entry_good))]
    fn is_entry_good(&self, k: usize) -> bool
        requires { (self.now.width ≤ widest) × (k < widest) }
        ensures { result ≡ entry_good self.now.width self.now.places k }
    {
        let place = u32::from(self.places[k]);
        if self.width as usize <= k {
            return place == 0;
        }
        1 <= place && place <= self.width && self.times_of(k as u8 + 1) == 1
    }

    // Whether the entries are 1 to width once each, and what stands behind them is 0.
    fn is_good(&self) -> bool
        requires { self.now.width ≤ widest }
        ensures { result ≡ good widest self.now.width self.now.places }
    {
        (0..128).all(|k| self.is_entry_good(k))
    }

    // The word with its bits moved, built from the left.
    fn moved_word(&self, word: Word) -> Word
        requires { self.now.width ≤ widest }
        ensures { result ≡ halves (moved self.now.width self.now.places (num word)) }
    {
        let mut out = Word::from(0);
        for place in self.entries() {
            out = words::pushed(out, place_bit(self.width, word, u32::from(*place)));
        }
        out
    }

    // The word with its bits moved back: each set bit, found from the left, goes to the place that its entry names.
    fn returned_word(&self, word: Word) -> Word
        requires { (self.now.width ≤ widest) × (good widest self.now.width self.now.places ≡ true)
            × (num word < 2 ^ self.now.width) }
        ensures { result
            ≡ halves (moved self.now.width (inverse widest self.now.width self.now.places) (num word)) }
    {
        let mut out = Word::from(0);
        let mut left = word;
        // As many turns as there are set bits, which no range counts.
        while !words::is_zero(left) {
            let weight = 127 - bits::leading_zeros(left);
            let place = u32::from(self.places[(self.width - 1 - weight) as usize]);
            out = out | bits::single(self.width - place);
            left = bits::without(left, bits::single(weight));
        }
        out
    }

    // The places of the inverse.
    fn inverse_places(&self) -> [u8; 128]
        requires { (self.now.width ≤ widest) × (good widest self.now.width self.now.places ≡ true) }
        ensures { result ≡ inverse widest self.now.width self.now.places }
    {
        let mut out = [0u8; 128];
        for i in 0..self.width as usize {
            out[self.places[i] as usize - 1] = (i + 1) as u8;
        }
        out
    }

    // The places of this swap first, then the other.
    fn composed_places(&self, then: &Swap) -> [u8; 128]
        requires { (self.now.width ≤ widest) × (good widest self.now.width «then».now.places ≡ true) }
        ensures { result ≡ composed widest self.now.width self.now.places «then».now.places }
    {
        let mut out = [0u8; 128];
        for i in 0..self.width as usize {
            out[i] = self.places[then.places[i] as usize - 1];
        }
        out
    }

    // Refusal 9 of a swap whose width is 1 to 128.
    #[tactic(auto, unfolding(crate::specs::SwapCalls::places_check))]
    fn check_places(&self) -> Result<(), Refusal>
        requires { self.now.width ≤ widest }
        ensures { verdict_reply result ≡ places_check widest self.now }
    {
        if self.is_good() {
            return Ok(());
        }
        refused(Reason::Swap, 0, 0)
    }

    // This swap alone: 1, then 9.
    #[tactic(auto, using(rules::proofs::ReplyLaws::passing, crate::proofs::SwapCallLaws::whole), unfolding(crate::specs::SwapCalls::check_swap))]
    fn check(&self) -> Result<(), Refusal>
        ensures { verdict_reply result ≡ check_swap widest self.now }
    {
        check_width(self.width)?;
        self.check_places()
    }

    // This swap and a rule: 1, then 4 and 5 of the rule, then 9.
    #[tactic(auto, using(rules::proofs::ReplyLaws::passing, crate::proofs::SwapCallLaws::whole), unfolding(crate::specs::SwapCalls::check_swap_rule))]
    fn check_with_rule(&self, rule: Rule) -> Result<(), Refusal>
        ensures { verdict_reply result ≡ check_swap_rule widest self.now (rule_of rule) }
    {
        check_rule(self.width, 1, 1, rule)?;
        self.check_places()
    }

    // This swap and a header: 1, then 6, then 9.
    #[tactic(auto, using(rules::proofs::ReplyLaws::passing, crate::proofs::SwapCallLaws::whole), unfolding(crate::specs::SwapCalls::check_swap_header, rules::specs::Checks::header_check))]
    fn check_with_header(&self, header: Word) -> Result<(), Refusal>
        ensures { verdict_reply result ≡ check_swap_header widest self.now (num header) }
    {
        check_width(self.width)?;
        check_header(self.width, header)?;
        self.check_places()
    }

    // Moves a rule.
    #[tactic(auto, using(crate::proofs::SwapCallLaws::whole), unfolding(crate::specs::Swaps::moved_rule))]
    pub fn apply_rule(self, rule: Rule) -> Result<Rule, Refusal>
        ensures { SwapGiven (check_swap_rule widest self (rule_of rule))
            (held (moved_rule self.width self.places (rule_of rule))) result }
    {
        self.check_with_rule(rule)?;
        Ok(Rule {
            care: self.moved_word(rule.care),
            value: self.moved_word(rule.value),
            decision: rule.decision,
        })
    }

    // Moves a header from wire order into swapped order.
    #[tactic(auto, using(crate::proofs::SwapCallLaws::whole))]
    pub fn apply(self, header: Wire) -> Result<Swapped, Refusal>
        ensures { SwapGiven (check_swap_header widest self (num header.0))
            (record { 0 = halves (moved self.width self.places (num header.0)) }) result }
    {
        let word = header.0;
        self.check_with_header(word)?;
        Ok(Swapped(self.moved_word(word)))
    }

    // Moves a header from swapped order back into wire order.
    #[tactic(auto, using(crate::proofs::SwapCallLaws::whole))]
    pub fn undo(self, header: Swapped) -> Result<Wire, Refusal>
        ensures { SwapGiven (check_swap_header widest self (num header.0))
            (record { 0 = halves (moved self.width (inverse widest self.width self.places) (num header.0)) }) result }
    {
        let swapped = header.0;
        self.check_with_header(swapped)?;
        Ok(Wire(self.returned_word(swapped)))
    }

    // The swap that undoes this one.
    #[tactic(auto, unfolding(crate::specs::SwapCalls::inverted))]
    pub fn invert(self) -> Result<Swap, Refusal>
        ensures { SwapGiven (check_swap widest self) (inverted widest self) result }
    {
        self.check()?;
        Ok(Swap {
            places: self.inverse_places(),
            width: self.width,
        })
    }

    // This swap first, then the other.
    #[tactic(auto, using(crate::proofs::SwapCallLaws::whole), unfolding(crate::specs::SwapCalls::joined))]
    pub fn compose(self, then: Swap) -> Result<Swap, Refusal>
        ensures { SwapGiven (check_swaps widest self «then») (joined widest self «then») result }
    {
        check_swaps(&self, &then)?;
        Ok(Swap {
            places: self.composed_places(&then),
            width: self.width,
        })
    }
}

// Looks a header in swapped order up by its number: no header in wire order is made of it.
pub fn lookup_swapped(width: u32, rules: RuleList, header: Swapped) -> Result<Option<Hit>, Refusal>
    ensures { looked_reply result
        ≡ looked_in width rules.entry (num header.0) }
{
    lookup_number(width, rules, header.0)
}
