//! Putting a method at the end of bytes.
ghost use Rattle.std.specs.Prelude.{◌≡◌, ◌++◌, OnOk, OnErr, IsOkUnless};
ghost use Rattle.qq_base.specs.Fronts.{IsFront as IsPrefix};
ghost use Rattle.qq_amqp_wire.specs.Writing.{HasLengths, method_bytes};

use crate::method::Method;
use crate::{put_basic, put_connection, put_queue};
use qq_base::Memory;

/// The numbers of a method and its arguments. What is reserved is zero or empty.
pub fn put_method(out: &mut Vec<u8>, method: &Method) -> Result<(), Memory>
    requires { HasLengths method.now }
    ensures ok { OnOk result (out.new.items ≡ out.old.items ++ method_bytes method.now) }
    ensures err { OnErr result (IsPrefix out.old.items out.new.items) }
    ensures want { IsOkUnless result Memory.Want }
{
    match method {
        Method::ConnectionStart {
            major,
            minor,
            properties,
            mechanisms,
            locales,
        } => put_connection::put_start(out, *major, *minor, properties, mechanisms, locales),
        Method::ConnectionStartOk {
            properties,
            mechanism,
            response,
            locale,
        } => put_connection::put_start_ok(out, properties, mechanism, response, locale),
        Method::ConnectionTune {
            channel_max,
            frame_max,
            heartbeat,
        } => put_connection::put_tune(out, *channel_max, *frame_max, *heartbeat),
        Method::ConnectionTuneOk {
            channel_max,
            frame_max,
            heartbeat,
        } => put_connection::put_tune_ok(out, *channel_max, *frame_max, *heartbeat),
        Method::ConnectionOpen { virtual_host } => put_connection::put_open(out, virtual_host),
        Method::ConnectionOpenOk => put_connection::put_open_ok(out),
        Method::ConnectionClose {
            code,
            text,
            class,
            method,
        } => put_connection::put_close(out, *code, text, *class, *method),
        Method::ConnectionCloseOk => put_connection::put_close_ok(out),
        Method::ChannelOpen => put_queue::put_channel_open(out),
        Method::ChannelOpenOk => put_queue::put_channel_open_ok(out),
        Method::ChannelClose {
            code,
            text,
            class,
            method,
        } => put_queue::put_channel_close(out, *code, text, *class, *method),
        Method::ChannelCloseOk => put_queue::put_channel_close_ok(out),
        Method::QueueDeclare {
            queue,
            passive,
            durable,
            exclusive,
            auto_delete,
            no_wait,
            arguments,
        } => put_queue::put_queue_declare(
            out,
            queue,
            *passive,
            *durable,
            *exclusive,
            *auto_delete,
            *no_wait,
            arguments,
        ),
        Method::QueueDeclareOk {
            queue,
            messages,
            consumers,
        } => put_queue::put_queue_declare_ok(out, queue, *messages, *consumers),
        Method::QueuePurge { queue, no_wait } => put_queue::put_queue_purge(out, queue, *no_wait),
        Method::QueuePurgeOk { messages } => put_queue::put_queue_purge_ok(out, *messages),
        Method::BasicQos {
            size,
            count,
            global,
        } => put_basic::put_qos(out, *size, *count, *global),
        Method::BasicQosOk => put_basic::put_qos_ok(out),
        Method::BasicConsume {
            queue,
            tag,
            no_local,
            no_ack,
            exclusive,
            no_wait,
            arguments,
        } => put_basic::put_consume(
            out, queue, tag, *no_local, *no_ack, *exclusive, *no_wait, arguments,
        ),
        Method::BasicConsumeOk { tag } => put_basic::put_consume_ok(out, tag),
        Method::BasicCancel { tag, no_wait } => put_basic::put_cancel(out, tag, *no_wait),
        Method::BasicCancelOk { tag } => put_basic::put_cancel_ok(out, tag),
        Method::BasicPublish {
            exchange,
            key,
            mandatory,
            immediate,
        } => put_basic::put_publish(out, exchange, key, *mandatory, *immediate),
        Method::BasicDeliver {
            consumer,
            tag,
            redelivered,
            exchange,
            key,
        } => put_basic::put_deliver(out, consumer, *tag, *redelivered, exchange, key),
        Method::BasicGet { queue, no_ack } => put_basic::put_get(out, queue, *no_ack),
        Method::BasicGetOk {
            tag,
            redelivered,
            exchange,
            key,
            messages,
        } => put_basic::put_get_ok(out, *tag, *redelivered, exchange, key, *messages),
        Method::BasicGetEmpty => put_basic::put_get_empty(out),
        Method::BasicAck { tag, multiple } => put_basic::put_ack(out, *tag, *multiple),
        Method::BasicReject { tag, requeue } => put_basic::put_reject(out, *tag, *requeue),
        Method::BasicNack {
            tag,
            multiple,
            requeue,
        } => put_basic::put_nack(out, *tag, *multiple, *requeue),
        Method::ConfirmSelect { no_wait } => put_queue::put_confirm_select(out, *no_wait),
        Method::ConfirmSelectOk => put_queue::put_confirm_select_ok(out),
    }
}
