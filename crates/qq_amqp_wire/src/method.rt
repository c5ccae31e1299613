use qq_base::{Bytes, Text};

/// A method of AMQP 0-9-1, with the arguments that aren't reserved. Its name is that of its class and its own.
///
/// A table and a long string are bytes, which aren't read.
#[derive(Drop)]
pub enum Method {
    /// The server offers to begin a connection.
    ConnectionStart {
        /// The protocol's major version.
        major: u8,
        /// The protocol's minor version.
        minor: u8,
        /// The server's properties, a table.
        properties: Bytes,
        /// The security mechanisms that it has, with blanks between them.
        mechanisms: Bytes,
        /// The locales that it has, with blanks between them.
        locales: Bytes,
    },
    /// The client takes the offer.
    ConnectionStartOk {
        /// The client's properties, a table.
        properties: Bytes,
        /// The security mechanism that it takes.
        mechanism: Text,
        /// What that mechanism asks for.
        response: Bytes,
        /// The locale that it takes.
        locale: Text,
    },
    /// The server proposes limits.
    ConnectionTune {
        /// The highest number of a channel, 0 for no limit.
        channel_max: u16,
        /// The most bytes of a frame, 0 for no limit.
        frame_max: u32,
        /// Seconds between heartbeats, 0 for none.
        heartbeat: u16,
    },
    /// The client chooses limits.
    ConnectionTuneOk {
        /// The highest number of a channel, 0 for no limit.
        channel_max: u16,
        /// The most bytes of a frame, 0 for no limit.
        frame_max: u32,
        /// Seconds between heartbeats, 0 for none.
        heartbeat: u16,
    },
    /// The client opens a virtual host.
    ConnectionOpen {
        /// The name of the virtual host.
        virtual_host: Text,
    },
    /// The virtual host is open.
    ConnectionOpenOk,
    /// Either side closes the connection.
    ConnectionClose {
        /// Why, as a number.
        code: u16,
        /// Why, in words.
        text: Text,
        /// The class of the method at fault, or 0.
        class: u16,
        /// The number of that method in its class, or 0.
        method: u16,
    },
    /// The connection is closed.
    ConnectionCloseOk,
    /// The client opens the channel.
    ChannelOpen,
    /// The channel is open.
    ChannelOpenOk,
    /// Either side closes the channel.
    ChannelClose {
        /// Why, as a number.
        code: u16,
        /// Why, in words.
        text: Text,
        /// The class of the method at fault, or 0.
        class: u16,
        /// The number of that method in its class, or 0.
        method: u16,
    },
    /// The channel is closed.
    ChannelCloseOk,
    /// Asks for a queue to be there.
    QueueDeclare {
        /// The queue's name.
        queue: Text,
        /// Only asks whether it is there.
        passive: bool,
        /// It is to outlive the server.
        durable: bool,
        /// It is to belong to the connection.
        exclusive: bool,
        /// It is to go with its last consumer.
        auto_delete: bool,
        /// No answer is wanted.
        no_wait: bool,
        /// More arguments, a table.
        arguments: Bytes,
    },
    /// The queue is there.
    QueueDeclareOk {
        /// The queue's name.
        queue: Text,
        /// How many messages are ready.
        messages: u32,
        /// How many consumers it has.
        consumers: u32,
    },
    /// Removes the ready messages of a queue.
    QueuePurge {
        /// The queue's name.
        queue: Text,
        /// No answer is wanted.
        no_wait: bool,
    },
    /// The queue is purged.
    QueuePurgeOk {
        /// How many messages were removed.
        messages: u32,
    },
    /// Limits how much is delivered without an ack.
    BasicQos {
        /// The limit in bytes, 0 for none.
        size: u32,
        /// The limit in messages, 0 for none.
        count: u16,
        /// It is of all consumers of the channel together.
        global: bool,
    },
    /// The limit stands.
    BasicQosOk,
    /// Adds a consumer.
    BasicConsume {
        /// The queue's name.
        queue: Text,
        /// The consumer's tag, empty to have the server choose one.
        tag: Text,
        /// Nothing that the connection has published.
        no_local: bool,
        /// What is delivered counts as acknowledged.
        no_ack: bool,
        /// No other consumer may be there.
        exclusive: bool,
        /// No answer is wanted.
        no_wait: bool,
        /// More arguments, a table.
        arguments: Bytes,
    },
    /// The consumer is there.
    BasicConsumeOk {
        /// The consumer's tag.
        tag: Text,
    },
    /// Ends a consumer.
    BasicCancel {
        /// The consumer's tag.
        tag: Text,
        /// No answer is wanted.
        no_wait: bool,
    },
    /// The consumer has ended.
    BasicCancelOk {
        /// The consumer's tag.
        tag: Text,
    },
    /// Publishes a message, whose content follows.
    BasicPublish {
        /// The exchange's name.
        exchange: Text,
        /// The routing key.
        key: Text,
        /// It comes back where it has no queue.
        mandatory: bool,
        /// It comes back where no consumer is ready.
        immediate: bool,
    },
    /// Delivers a message, whose content follows.
    BasicDeliver {
        /// The consumer's tag.
        consumer: Text,
        /// The number under which it is acknowledged.
        tag: u64,
        /// It was delivered before.
        redelivered: bool,
        /// The exchange that it was published to.
        exchange: Text,
        /// Its routing key.
        key: Text,
    },
    /// Asks for one message.
    BasicGet {
        /// The queue's name.
        queue: Text,
        /// What is given counts as acknowledged.
        no_ack: bool,
    },
    /// Gives one message, whose content follows.
    BasicGetOk {
        /// The number under which it is acknowledged.
        tag: u64,
        /// It was delivered before.
        redelivered: bool,
        /// The exchange that it was published to.
        exchange: Text,
        /// Its routing key.
        key: Text,
        /// How many messages are still ready.
        messages: u32,
    },
    /// There is no message.
    BasicGetEmpty,
    /// Acknowledges a message.
    BasicAck {
        /// Its number, 0 for all.
        tag: u64,
        /// All up to it are meant.
        multiple: bool,
    },
    /// Rejects a message.
    BasicReject {
        /// Its number.
        tag: u64,
        /// It goes back to its queue.
        requeue: bool,
    },
    /// Rejects messages.
    BasicNack {
        /// Its number, 0 for all.
        tag: u64,
        /// All up to it are meant.
        multiple: bool,
        /// They go back to their queue.
        requeue: bool,
    },
    /// Asks for an ack of each publish.
    ConfirmSelect {
        /// No answer is wanted.
        no_wait: bool,
    },
    /// Each publish will have an ack.
    ConfirmSelectOk,
}
