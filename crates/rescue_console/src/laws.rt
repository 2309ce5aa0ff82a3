//! What the definitions mean.
ghost use Rattle.rescue_console.specs.Speaking.{HeardSpeak, OnePieceIsSaid, SpeechesJoin, SpokenIsPut};

/// What is put in two parts, one after the other, is put together.
pub fn speeches_join()
    ensures { SpeechesJoin }
{}

/// Who is heard at first speaks.
pub fn who_is_heard_speaks()
    ensures { HeardSpeak }
{}

/// A piece that is put whole by one put is spoken.
pub fn one_piece_is_said()
    ensures { OnePieceIsSaid }
{}

/// What is spoken and heard to its end is on the channels, each text after the one before.
pub fn what_is_spoken_is_put()
    ensures { SpokenIsPut }
{}
