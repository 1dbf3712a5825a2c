// The laws of MT 511 texts, each the promise of a call that does nothing else.
ghost use Rattle.trade.specs.Laws.{OneAnswer, OneForm, ReadsBack, OneJudgement, AsInTheTable};
ghost use Rattle.trade.specs.Readings.{Readings};

pub fn texts_have_one_answer()
    ensures one_answer { OneAnswer }
{}

pub fn trades_have_one_form()
    ensures same_trade_exactly_when_written_alike { OneForm }
    ensures what_was_read_is_written_and_reads_back { ReadsBack }
    ensures one_answer_to_be_written { OneJudgement }
{}

pub fn rows_are_as_in_the_table()
    ensures notation_as_printed { AsInTheTable }
{}

pub fn worked_readings_hold()
    ensures worked_readings { Readings }
{}
