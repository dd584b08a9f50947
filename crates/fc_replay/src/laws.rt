//! Laws of the definitions, each the contract of a function that does nothing.

ghost use Rattle.fc_replay.specs.Laws.{PlayedTokensRun, TokensEndInOneWay};

/// Tokens that play are a run of as many moves, to the last of the boards.
pub fn played_tokens_run()
    ensures { PlayedTokensRun }
{}

/// No tokens end in two ways, but for a failure of the sink.
pub fn tokens_end_in_one_way()
    ensures { TokensEndInOneWay }
{}
