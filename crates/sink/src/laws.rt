// Facts about block files, as what a call ensures.
ghost use Rattle.sink.specs.Laws.{Sample, ZerosEmpty};

// All zeros are an empty file, and the worked example of a check.
pub fn block_file_laws()
    ensures sample { Sample }
    ensures zeros { ZerosEmpty }
{}
