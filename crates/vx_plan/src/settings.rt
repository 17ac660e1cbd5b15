ghost use Rattle.std.specs.Prelude.{◌≡◌, ◌<◌, [], length, slice_index_or, false, IfOk};
ghost use Rattle.std.specs.Option.{option_copied};
ghost use Rattle.vx_plan.specs.Components.{of_sink};
ghost use Rattle.vx_plan.specs.declared.sink_settings.SinkSettings.{SinkSettings};
ghost use Rattle.vx_plan.specs.Ports.{checkpoint_path, form_of};
ghost use Rattle.vx_plan.specs.Options.{sink_options, line_limit, decoding, encoding, file_read, has_device, transform_ports};

use crate::checkpoint::checkpoint_path;
use crate::compression::Compression;
use crate::console_target::ConsoleTarget;
use crate::copies::{
    copy_demo, copy_fields, copy_optional, copy_paths, copy_routes, copy_strategies,
};
use crate::read_from::ReadFrom;
use crate::route::RouteList;
use crate::sink_settings::SinkSettings;
use std::alloc::Global;
use vx_codec::{Codec, Decoding};
use vx_condition::{DedupeFields, PathList, StrategyList};
use vx_demo::DemoSettings;
use vx_ends::Form;
use vx_value::{Text, WantOfMemory};

/// The options of a component, one variant for each type.
#[derive(Drop)]
pub enum Settings {
    /// A source that reads standard input.
    Stdin {
        /// How many bytes a line may have, without its line feed: 1 to 16,777,216.
        max_length: u32,
        decoding_codec: Decoding,
    },
    /// A source that reads a file.
    FileIn {
        /// How many bytes a line may have, without its line feed: 1 to 16,777,216.
        max_line_bytes: u32,
        /// The path of the file.
        include: Text,
        read_from: ReadFrom,
        decoding_codec: Decoding,
    },
    /// A source that makes its lines itself.
    DemoLogs {
        demo: DemoSettings,
        /// How many seconds lie between two lines: 0 to 86,400. With 0 it makes 64 lines at once.
        interval: u32,
    },
    /// A transform that passes what its condition accepts.
    Filter {
        condition: Text,
    },
    /// A transform that puts events out by conditions.
    Route {
        /// 1 to 64 of them.
        routes: RouteList,
        /// Whether what no condition accepts is put out on a port of its own, or else discarded.
        reroute_unmatched: bool,
    },
    /// A transform that passes each event whose number is a multiple of a rate.
    Sample {
        rate: u64,
        /// The condition of what passes uncounted.
        exclude: Option<Text>,
    },
    /// A transform that discards repeats.
    Dedupe {
        fields: DedupeFields,
        /// How many keys it keeps: 1 to 1,000,000.
        cache_num_events: u32,
    },
    /// A transform that merges events.
    Reduce {
        group_by: PathList,
        starts_when: Option<Text>,
        ends_when: Option<Text>,
        expire_after_ms: u64,
        flush_period_ms: u64,
        merge_strategies: StrategyList,
    },
    /// A transform that is handed in.
    Host,
    /// A sink that writes to standard output or standard error.
    Console {
        target: ConsoleTarget,
        encoding_codec: Codec,
        sink: SinkSettings,
    },
    /// A sink that appends to a file.
    FileOut {
        path: Text,
        compression: Compression,
        encoding_codec: Codec,
        sink: SinkSettings,
    },
    /// A sink that writes nothing.
    Blackhole {
        /// Without effect.
        print_interval_secs: u64,
        sink: SinkSettings,
    },
}

impl Settings {
    /// What a sink shares with all sinks; `None` for other components.
    pub fn sink(&self) -> Option<&SinkSettings>
        ensures { option_copied result ≡ sink_options self.now }
    {
        match self {
            Settings::Console { sink, .. }
            | Settings::FileOut { sink, .. }
            | Settings::Blackhole { sink, .. } => Some(sink),
            _ => None,
        }
    }

    /// How many bytes a line of a source may have; `None` for a component that reads no lines.
    pub fn line_limit(&self) -> Option<u32>
        ensures { result ≡ line_limit self.now }
    {
        match self {
            Settings::Stdin { max_length, .. } => Some(*max_length),
            Settings::FileIn { max_line_bytes, .. } => Some(*max_line_bytes),
            Settings::DemoLogs { .. } => Some(u32::MAX),
            _ => None,
        }
    }

    /// How a source makes events of lines; `None` for a component that reads no lines.
    pub fn decoding(&self) -> Option<Decoding>
        ensures { result ≡ decoding self.now }
    {
        match self {
            Settings::Stdin { decoding_codec, .. } | Settings::FileIn { decoding_codec, .. } => {
                Some(*decoding_codec)
            }
            Settings::DemoLogs { .. } => Some(Decoding::Bytes),
            _ => None,
        }
    }

    /// How a sink writes events; `None` for a component that writes none.
    pub fn encoding(&self) -> Option<Codec>
        ensures { result ≡ encoding self.now }
    {
        match self {
            Settings::Console { encoding_codec, .. } | Settings::FileOut { encoding_codec, .. } => {
                Some(*encoding_codec)
            }
            _ => None,
        }
    }

    /// The path of the file that a source reads; `None` for a component that reads none.
    pub fn file(&self) -> Option<&Text>
        ensures { option_copied result ≡ file_read self.now }
    {
        match self {
            Settings::FileIn { include, .. } => Some(include),
            _ => None,
        }
    }

    /// Whether it is a sink that makes batches wait.
    pub fn acknowledges(&self) -> bool
        ensures { result ≡ of_sink false (λ (s : SinkSettings). s.acknowledgements) self.now }
    {
        match self.sink() {
            None => false,
            Some(sink) => sink.acknowledgements,
        }
    }

    /// Whether the component works with a port.
    pub fn has_device(&self) -> bool
        ensures { result ≡ has_device self.now }
    {
        match self {
            Settings::Stdin { .. }
            | Settings::FileIn { .. }
            | Settings::Console { .. }
            | Settings::FileOut { .. } => true,
            _ => false,
        }
    }

    /// The form of the port that a component of that name works with; `None` exactly where it works with none.
    ///
    /// `once` says whether the run ends with the files that are there. Checkpoints stand in `folder`.
    pub(crate) fn form(
        &self,
        alloc: Global,
        once: bool,
        folder: &str,
        name: &str,
    ) -> Result<Option<Form>, WantOfMemory>
        ensures { IfOk result
            (λ form. form ≡ form_of once (checkpoint_path folder.now name.now) self.now) }
    {
        match self {
            Settings::Stdin { .. } => Ok(Some(Form::Stdin)),
            Settings::FileIn { include, .. } => Ok(Some(Form::FileIn {
                path: include.copy(alloc)?,
                once,
                checkpoint: checkpoint_path(alloc, folder, name)?,
            })),
            Settings::Console { target, .. } => Ok(Some(Form::Console {
                err: *target == ConsoleTarget::Stderr,
            })),
            Settings::FileOut { path, .. } => Ok(Some(Form::FileOut {
                path: path.copy(alloc)?,
            })),
            _ => Ok(None),
        }
    }

    // How many ports a transform has.
    pub(crate) fn ports(&self) -> usize
        ensures { result ≡ length (transform_ports self.now) }
    {
        match self {
            Settings::Route { routes, .. } => routes.as_slice().len() + 1,
            _ => 1,
        }
    }

    // The name of a transform's port.
    pub(crate) fn port_name(&self, port: usize) -> &str
        requires { port < length (transform_ports self.now) }
        ensures { result.now ≡ slice_index_or (transform_ports self.now) port [] }
    {
        match self {
            Settings::Route { routes, .. } => match routes.get(port) {
                Some(route) => route.name.as_str(),
                None => "_unmatched",
            },
            _ => "",
        }
    }

    /// The same settings once more.
    pub fn copy(&self, alloc: Global) -> Result<Self, WantOfMemory>
        ensures { IfOk result (λ copy. copy ≡ self.now) }
    {
        match self {
            Settings::Stdin {
                max_length,
                decoding_codec,
            } => Ok(Settings::Stdin {
                max_length: *max_length,
                decoding_codec: *decoding_codec,
            }),
            Settings::Console {
                target,
                encoding_codec,
                sink,
            } => Ok(Settings::Console {
                target: *target,
                encoding_codec: *encoding_codec,
                sink: sink.copy(alloc)?,
            }),
            Settings::FileIn {
                max_line_bytes,
                include,
                read_from,
                decoding_codec,
            } => Ok(Settings::FileIn {
                max_line_bytes: *max_line_bytes,
                include: include.copy(alloc)?,
                read_from: *read_from,
                decoding_codec: *decoding_codec,
            }),
            Settings::FileOut {
                path,
                compression,
                encoding_codec,
                sink,
            } => Ok(Settings::FileOut {
                path: path.copy(alloc)?,
                compression: *compression,
                encoding_codec: *encoding_codec,
                sink: sink.copy(alloc)?,
            }),
            Settings::Blackhole {
                print_interval_secs,
                sink,
            } => Ok(Settings::Blackhole {
                print_interval_secs: *print_interval_secs,
                sink: sink.copy(alloc)?,
            }),
            Settings::DemoLogs { demo, interval } => Ok(Settings::DemoLogs {
                demo: copy_demo(alloc, demo)?,
                interval: *interval,
            }),
            Settings::Filter { condition } => Ok(Settings::Filter {
                condition: condition.copy(alloc)?,
            }),
            Settings::Route {
                routes,
                reroute_unmatched,
            } => Ok(Settings::Route {
                routes: copy_routes(alloc, routes)?,
                reroute_unmatched: *reroute_unmatched,
            }),
            Settings::Sample { rate, exclude } => Ok(Settings::Sample {
                rate: *rate,
                exclude: copy_optional(alloc, exclude)?,
            }),
            Settings::Dedupe {
                fields,
                cache_num_events,
            } => Ok(Settings::Dedupe {
                fields: copy_fields(alloc, fields)?,
                cache_num_events: *cache_num_events,
            }),
            Settings::Reduce {
                group_by,
                starts_when,
                ends_when,
                expire_after_ms,
                flush_period_ms,
                merge_strategies,
            } => Ok(Settings::Reduce {
                group_by: copy_paths(alloc, group_by)?,
                starts_when: copy_optional(alloc, starts_when)?,
                ends_when: copy_optional(alloc, ends_when)?,
                expire_after_ms: *expire_after_ms,
                flush_period_ms: *flush_period_ms,
                merge_strategies: copy_strategies(alloc, merge_strategies)?,
            }),
            Settings::Host => Ok(Settings::Host),
        }
    }
}
