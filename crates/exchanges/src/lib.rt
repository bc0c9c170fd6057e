#![tactic(auto)]

ghost use Rattle.exchanges.specs.Files.{WorkedExchanges};

// The worked exchanges have the answers of the table, by computing the rules.
pub fn worked_exchanges_hold()
    ensures { WorkedExchanges }
{}
