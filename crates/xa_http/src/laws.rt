//! The law of a stream: however it is cut into pieces, its messages are the same.
ghost use Rattle.xa_http.specs.Laws.{KeepsMessages, KeepsFaults, FaultsAreFinal, AnswersMessages};
ghost use Rattle.xa_http.specs.Laws.{FeedsOn, TakesOn, HasOneCut, AnswersFirstMessages};

/// Law: however a stream is cut into pieces, its messages are the same. The call does nothing.
pub fn pieces_make_no_difference()
    // Bytes that follow leave a message at the front, and a fault there, as they were.
    ensures messages { KeepsMessages }
    ensures faults { KeepsFaults }

    // So a fault is answered only if no continuation is a message.
    ensures for_good { FaultsAreFinal }

    // If a message stands at the front, a session answers that message and nothing else.
    ensures answers { AnswersMessages }

    // The messages taken so far and what is held are a cut of the stream so far, and a stream has one cut.
    ensures feeds { FeedsOn }
    ensures takes { TakesOn }
    ensures one_cut { HasOneCut }

    // However the stream is cut into pieces, and whenever a session is asked, it answers the first
    // messages of the whole stream.
    ensures answers_first { AnswersFirstMessages }
{}
