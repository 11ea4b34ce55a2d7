// The cells afterwards: what the holder names, the writer, the block's holder.
ghost use Rattle.std.specs.Prelude.{◌≡◌, false, ◌<◌};
ghost use Rattle.model.specs.Card.{with_running, with_core, core_of};
ghost use Rattle.model.specs.Limits.{max_taken};
ghost use Rattle.model.specs.Write.{writer, takes_past, written_card};
ghost use Rattle.model.specs.declared.Card.{Card};
ghost use Rattle.model.specs.declared.Transaction.{Transaction};
ghost use Rattle.cells.specs.Cells.{transaction_in, card_in};
ghost use Rattle.cells.specs.Changes.{IsPlace, Changed, ChangedAt};
ghost use Rattle.rules.specs.Conditions.{rule_met, Bounded, named_by, taken_by, after_by};
ghost use Rattle.transaction.specs.Writing.{named_back, held_by};

use cells::{State, hold, running_place};
use model::{Name, Rule};
use rules::{RuleMet, is_named_back, names_holder, takes_block};
use running::{add_block, open_at, raise_number};

// The holder, naming the writer where the rule asks for it.
fn name_back(w: &mut State, f: RuleMet)
    requires { Bounded f }
    ensures { Changed (λ (x : Card). named_back f.rule x f.holder.core f.own)
        w.old w.new 0 423 }
{
    let rule = f.rule;
    if !is_named_back(rule) {
        return;
    }
    raise_number(w, running_place(f.holder.core), f.own);
}

// The transaction at a place, naming the holder where the rule asks for it.
fn name_own(w: &mut State, at: usize, rule: Rule, n: Name)
    requires { IsPlace at × (n.core < 8) }
    ensures { ChangedAt at (λ (t : Transaction). named_by rule t n) w.old w.new }
{
    if !names_holder(rule) {
        return;
    }
    raise_number(w, at, n);
}

// Its blocks, the block taken where the rule asks for it.
fn block_own(w: &mut State, at: usize, rule: Rule, b: u8)
    requires { IsPlace at × (takes_past max_taken rule (transaction_in w.old at) ≡ false) }
    ensures { ChangedAt at (λ (t : Transaction). taken_by rule t b) w.old w.new }
{
    if !takes_block(rule) {
        return;
    }
    add_block(w, at, b);
}

// The writer, opened if its core has none: what it names and its blocks.
fn write_own(w: &mut State, f: RuleMet)
    requires { Bounded f × (takes_past max_taken f.rule (writer (card_in w.old) f.core) ≡ false) }
    ensures { Changed (λ (x : Card). with_core x f.core (with_running (core_of x f.core) (after_by x f)))
        w.old w.new 0 423 }
{
    let rule = f.rule;
    let at = running_place(f.core);
    open_at(w, at);
    name_own(w, at, rule, f.holder);
    block_own(w, at, rule, f.block);
}

// The block's holder: the writer where it takes the block.
fn take_hold(w: &mut State, f: RuleMet)
    requires { Bounded f }
    ensures { Changed (λ (x : Card). held_by f.rule x f.block f.own) w.old w.new 0 423 }
{
    let rule = f.rule;
    if !takes_block(rule) {
        return;
    }
    hold(w, f.block, f.own);
}

// What a WRITE that meets no ninth block makes of the cells: what the holder names, the writer, the block's holder.
pub fn write_state(w: &mut State, f: RuleMet)
    requires { Bounded f × (f ≡ rule_met (card_in w.old) f.core f.block)
        × (takes_past max_taken f.rule (writer (card_in w.old) f.core) ≡ false) }
    ensures { Changed (λ (x : Card). written_card x f.core f.block) w.old w.new 0 423 }
{
    name_back(w, f);
    write_own(w, f);
    take_hold(w, f);
}
