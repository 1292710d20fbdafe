// Laws of texts, packed lists and shown forms, as what calls ensure.
ghost use Rattle.util.specs.Laws.{TextsJoin, PackUnpack, UnpackPack, QuotedReads, QuotedPrints, ShownInLine, ShownText, ShownBound, ShownAlike};

// Packing and unpacking undo each other.
pub fn packed_list_laws()
    ensures packed { PackUnpack }
    ensures unpacked { UnpackPack }
{}

// Quoting loses nothing and breaks no line; still two values may be shown alike.
pub fn shown_form_laws()
    ensures reads { QuotedReads }
    ensures prints { QuotedPrints }
    ensures in_line { ShownInLine }
    ensures text { ShownText }
    ensures bound { ShownBound }
    ensures alike { ShownAlike }
{}

// Texts may be joined.
pub fn text_laws()
    ensures { TextsJoin }
{}
