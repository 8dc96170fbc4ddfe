ghost use Rattle.std.specs.Prelude.{◌≡◌, length};
ghost use Rattle.bfgp_outside.specs.Sink.{Puts};
ghost use Rattle.answer_writer.specs.Document.{document};
ghost use Rattle.family_gen.specs.Families.{sizes_of};
ghost use Rattle.summary_writer.specs.Summary.{summary};
ghost use Rattle.refutation_tree.specs.Grammar.{IsGrammatical};
ghost use Rattle.bfgp_jobs.specs.Due.{status_of};

use crate::searching::Found;
use crate::status::Status;
use answer_writer::write_answer;
use bfgp_outside::{Sink, SinkFailed, put_all};
use flag_rules::Text;
use std::marker::Model;
use summary_writer::{Sample, write_summary};

/// What is to be written, and the status to end with. Contracts see the status and the text.
#[derive(Drop)]
pub(crate) struct Reply {
    status: Status,
    body: Body,
}

/// Where the text of a reply comes from.
#[derive(Drop)]
enum Body {
    /// It is held.
    Text(Text),
    /// It is the document of what a search found, which is put without being held.
    Document(Found),
    /// It is the summary of what a search over a sample found, which is put without being held.
    Summary(Sample, Found),
}

impl Model for Reply {
    ghost use Rattle.bfgp_jobs.specs.Reply.{Reply};
    ghost use Rattle.bfgp_jobs.specs.Inner.Body.{text_of, IsWritable};

    ghost Value = { Reply };

    ghost view = { λ reply. record { status = reply.status; text = text_of reply.body } };

    ghost invariant = { λ reply. IsWritable reply.body };
}

impl Reply {
    /// The reply with a text.
    pub(crate) fn of_text(status: Status, text: Text) -> Reply
        ensures { result ≡ record { status = status; text = text } }
    {
        Reply {
            status,
            body: Body::Text(text),
        }
    }

    /// The reply with the document of what a search found.
    pub(crate) fn of_document(found: Found) -> Reply
        requires { IsGrammatical (length found.names) found.answer }
        ensures { result ≡ record { status = status_of found.answer.outcome; text = document found.names found.answer } }
    {
        Reply {
            status: found.status(),
            body: Body::Document(found),
        }
    }

    /// The reply with the summary of what a search over a sample found.
    pub(crate) fn of_summary(sample: Sample, found: Found) -> Reply
        requires sizes { sample.sizes ≡ sizes_of sample.family sample.number }
        requires answer { IsGrammatical (length found.names) found.answer }
        ensures { result ≡ record {
          status = status_of found.answer.outcome;
          text = summary found.names sample.family sample.number found.answer;
        } }
    {
        Reply {
            status: found.status(),
            body: Body::Summary(sample, found),
        }
    }

    /// The status to end with.
    pub(crate) fn status(&self) -> Status
        ensures { result ≡ self.now.status }
    {
        self.status
    }

    /// Puts the text. It takes no memory.
    pub(crate) fn write<K: Sink>(&self, sink: &mut K) -> Result<(), SinkFailed>
        ensures { Puts K.written K.faults sink.old sink.new result self.now.text }
    {
        match &self.body {
            Body::Text(text) => put_all(sink, text.as_slice()),
            Body::Document(found) => write_answer(sink, &found.answer, &found.names),
            Body::Summary(sample, found) => {
                write_summary(sink, sample, &found.answer, &found.names)
            }
        }
    }
}
