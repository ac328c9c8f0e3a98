//! The devices of a task.

ghost use Rattle.std.specs.Prelude.{◌≡◌};
ghost use Rattle.lf_task_serve.specs.Surroundings.{Io};

use crate::listener::PortListener;
use lf_io::{OutputFiles, Sink, Source};
use lf_task_designs::InputFiles;
use lf_task_run::Progress;
use std::marker::PhantomData;

/// The types of the devices of a task.
pub trait Devices {
    /// The files from which texts are read.
    type Texts: InputFiles;
    /// The files that are written.
    type Exports: OutputFiles;
    /// The ports of services.
    type Services: PortListener;
    /// The source of lines.
    type Reader: Source;
    /// The sink of replies, reports and descriptions.
    type Writer: Sink;
    /// The sink of fault messages.
    type Faults: Sink;
    /// The receiver of the progress of a repair or an improvement.
    type Progress: Progress;
}

/// The devices of a task: its input and output files, its services, its reader and writers.
#[derive(Drop)]
pub struct Environment<D: Devices> {
    /// The files from which texts are read.
    pub texts: D::Texts,
    /// The files that are written.
    pub exports: D::Exports,
    /// The ports of services.
    pub services: D::Services,
    /// The source of lines.
    pub reader: D::Reader,
    /// The sink of replies, reports and descriptions.
    pub writer: D::Writer,
    /// The sink of fault messages.
    pub faults: D::Faults,
    /// The receiver of the progress of a repair or an improvement.
    pub progress: D::Progress,
}

/// What contracts see of the devices of a task, as one value.
pub trait Shows {
    /// What was read, written, put into files, offered and accepted, and which devices have failed.
    ghost io: { Self → Io };
}

impl<D: Devices> Shows for Environment<D> {
    ghost io = { λ around. record {
      left = D.Reader.remaining around.reader;
      reads = D.Reader.reads around.reader;
      read_failed = D.Reader.has_failed around.reader;
      reader = D.Reader.holds around.reader;
      contents = D.Writer.contents around.writer;
      write_failed = D.Writer.has_failed around.writer;
      writer = D.Writer.holds around.writer;
      puts = D.Exports.puts around.exports;
      put_failed = D.Exports.has_failed around.exports;
      accepted = D.Services.accepted around.services;
      offers = D.Services.offers around.services;
      service_failed = D.Services.has_failed around.services;
    } };
}

/// Names the types of devices that are given one by one.
#[derive(Drop)]
pub struct DevicesOf<T, E, V, R, W, F, P> {
    of: PhantomData<(T, E, V, R, W, F, P)>,
}

impl<T, E, V, R, W, F, P> Devices for DevicesOf<T, E, V, R, W, F, P>
where
    T: InputFiles,
    E: OutputFiles,
    V: PortListener,
    R: Source,
    W: Sink,
    F: Sink,
    P: Progress,
{
    type Texts = T;

    type Exports = E;

    type Services = V;

    type Reader = R;

    type Writer = W;

    type Faults = F;

    type Progress = P;
}

impl<T, E, V, R, W, F, P> Environment<DevicesOf<T, E, V, R, W, F, P>>
where
    T: InputFiles,
    E: OutputFiles,
    V: PortListener,
    R: Source,
    W: Sink,
    F: Sink,
    P: Progress,
{
    /// Makes the environment of these devices.
    pub fn new(
        texts: T,
        exports: E,
        services: V,
        reader: R,
        writer: W,
        faults: F,
        progress: P,
    ) -> Self
        ensures { result ≡ record {
          texts = texts;
          exports = exports;
          services = services;
          reader = reader;
          writer = writer;
          faults = faults;
          progress = progress;
        } }
    {
        Environment {
            texts,
            exports,
            services,
            reader,
            writer,
            faults,
            progress,
        }
    }
}
