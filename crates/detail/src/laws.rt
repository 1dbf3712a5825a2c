// What holds of the contents of field 31P.
ghost use Rattle.detail_cut.specs.Form.{AsInTheTable};
ghost use Rattle.detail.specs.Laws.{OneAnswer, ReadsBack, RefusedExactly, WrittenAlike, AtMost38, NoReturn};
ghost use Rattle.detail.specs.Readings.{Readings31P};

pub fn details_have_one_form()
    ensures notation_as_in_the_table { AsInTheTable }
    ensures contents_have_one_answer { OneAnswer }
    ensures written_reads_back_as_the_same { ReadsBack }
    ensures refused_exactly_when_no_contents_mean_it { RefusedExactly }
    ensures same_meaning_exactly_when_written_alike { WrittenAlike }
    ensures written_within_38_bytes { AtMost38 }
    ensures written_without_carriage_return { NoReturn }
    ensures worked_readings { Readings31P }
{}
