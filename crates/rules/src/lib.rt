// Which of the four rules a WRITE meets at a block, what each rule asks for, and whether there is room for it. No function here is a
// public entry of the library.
#![tactic(auto)]

mod room; // whether there is room

ghost use Rattle.std.specs.Prelude.{◌≡◌, ℕ, ◌<◌};
ghost use Rattle.model.specs.Card.{core_of, holder_name, holder_of};
ghost use Rattle.model.specs.Write.{writer_name, is_running_in, rule_for, takes_block, names_holder, is_named_back, loads_image};
ghost use Rattle.cells.specs.Cells.{card_in};
ghost use Rattle.rules.specs.Conditions.{rule_met, Bounded};

use cells::{State, core_place, holder_at, is_live, number_in, running_place};
use model::{Name, Rule};
pub use room::check_room;

// A WRITE as its core, its block and what it meets there: the rule, the name of the block's holder, the writer's own name.
#[derive(Clone, Copy)]
pub struct RuleMet {
    pub core: u8,
    pub block: u8,
    pub rule: Rule,
    pub holder: Name,
    pub own: Name,
}

// Whether core c has a running transaction.
fn has_running(w: &State, c: u8) -> bool
    requires { c < 8 }
    ensures { result ≡ (core_of (card_in w.now) c).running.live }
{
    is_live(w, running_place(c))
}

// The name of the transaction that writes, of core c.
fn writer_name(w: &State, c: u8) -> Name
    requires { c < 8 }
    ensures { (result ≡ writer_name (card_in w.now) c) × (result.core < 8) }
{
    Name {
        core: c,
        number: number_in(w, core_place(c)),
    }
}

// Whether the transaction of this name is running.
fn is_running(w: &State, n: Name) -> bool
    requires { n.core < 8 }
    ensures { result ≡ is_running_in (card_in w.now) n }
{
    if !has_running(w, n.core) {
        return false;
    }
    let number = number_in(w, core_place(n.core));
    number == n.number
}

// Which rule the writer of the name own meets at a block b whose holder is h.
fn rule_for(w: &State, h: Option<Name>, own: Name) -> Rule
    requires { (holder_name h).core < 8 }
    ensures { (c b : ℕ) → h ≡ holder_of (card_in w.now) b → own ≡ writer_name (card_in w.now) c
        → result ≡ rule_for (card_in w.now) c b }
{
    let Some(holder) = h else {
        return Rule::Free;
    };
    if holder == own {
        return Rule::Own;
    }
    if !is_running(w, holder) {
        return Rule::Closed;
    }
    Rule::Running
}

// What a WRITE of core c to block b meets.
pub fn find(w: &State, c: u8, b: u8) -> RuleMet
    requires { (c < 8) × (b < 64) }
    ensures { (result ≡ rule_met (card_in w.now) c b) × Bounded result }
{
    let h = holder_at(w, b);
    let own = writer_name(w, c);
    let holder = h.unwrap_or(Name { core: 0, number: 0 });
    RuleMet {
        core: c,
        block: b,
        rule: rule_for(w, h, own),
        holder,
        own,
    }
}

// Whether the writer takes the block.
pub fn takes_block(r: Rule) -> bool
    ensures { result ≡ takes_block r }
{
    matches!(r, Rule::Free | Rule::Closed)
}

// Whether the writer names the holder.
pub fn names_holder(r: Rule) -> bool
    ensures { result ≡ names_holder r }
{
    matches!(r, Rule::Running | Rule::Closed)
}

// Whether the holder names the writer.
pub fn is_named_back(r: Rule) -> bool
    ensures { result ≡ is_named_back r }
{
    matches!(r, Rule::Running)
}

// Whether the image is loaded from home.
pub fn loads_image(r: Rule) -> bool
    ensures { result ≡ loads_image r }
{
    matches!(r, Rule::Free)
}
